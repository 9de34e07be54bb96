//! Which blocks of a history are stored, and what is to be written next.
#![tactic(auto)]

mod finals;
mod places;
mod planning;
mod plans;
mod stored;

pub use places::{NumberedPlace, PlacesByNumber};
pub use plans::BundlePlan;
pub use stored::StoredBlocks;

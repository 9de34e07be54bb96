//! A history that several nodes feed: what an offered block is answered, and what a client at any
//! place is given next.
#![tactic(auto)]

mod answers;
mod kinds;
mod limits;
mod marks;
mod memory;
mod merging;
mod notes;
mod relay;

pub use answers::KindFault;
pub use block_intake::{Conflict, ConflictKind, OfferFault, Offered};
pub use limits::Limits;
pub use relay::Relay;
pub use relay_look::{Look, LookFault, Position};
pub use stored_blocks::BundlePlan;

//! Blocks of a reader taken into a relay, each with a file of its own.
#![tactic(auto)]

mod faults;
mod names;
mod own;
mod places;
mod puts;
mod sweeps;
mod take;

pub use faults::TakeFault;
pub use own::{OwnFile, OwnFiles};
pub use take::take_owned;

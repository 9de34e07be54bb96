//! Plans of bundles, written to a shelf, and what is written shed from a relay.
#![tactic(auto)]

mod held;
mod merging;
mod messages;
mod writes;

pub use merging::{Merged, merge_owned};
pub use writes::write_plan;

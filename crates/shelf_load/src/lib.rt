//! The shelf of a relay, swept, and how its blocks are taken into a relay.
#![tactic(auto)]

mod ending;
mod entries;
mod heads;
mod laws;
mod left_out;
mod loads;
mod merged;
mod owns;
mod put_by;
mod singles;
mod sweeps;
mod taking;

pub use laws::taking_is_loading;
pub use loads::{Loaded, load};
pub use sweeps::sweep_all;

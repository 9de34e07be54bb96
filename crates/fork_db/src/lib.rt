//! A history with forks: what may come next, what is final, the head, and the steps to it.
#![tactic(auto)]

mod batches;
mod chunks;
mod claims;
mod db;
mod heads;
mod held;
mod openings;

pub use batches::{Batch, copy_place};
pub use chunks::{StepAt, StepItem};
pub use claims::{ChildFault, Linked};
pub use db::{ForkDb, ForkFault, Verdict};

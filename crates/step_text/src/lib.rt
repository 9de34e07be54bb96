//! What `steps` tells of blocks, as definitions, and the lines of steps.
#![tactic(auto)]

mod lines;
mod refusals;

pub use lines::{push_line, word};
pub use refusals::Refusal;

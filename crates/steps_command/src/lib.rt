//! The command that reads a node's lines and prints the steps of their blocks.
#![tactic(auto)]

mod error_lines;
mod following;
mod progress;
mod run;
mod steps;

pub use progress::RunEnd;
pub use run::run_steps;
pub use steps::StepsStop;

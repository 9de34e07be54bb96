//! The command that reads the whole shelf, and says how many files and blocks it has.
#![tactic(auto)]

mod lines;
mod run;

pub use run::{CheckStop, run_check};

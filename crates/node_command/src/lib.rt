//! The command that writes the lines of a generated node.
#![tactic(auto)]

mod options;
mod run;

pub use options::{NodeOptions, names_node};
pub use run::{NodeStop, run_node};

//! The events of a plant, one after another, as a script tells them.
#![tactic(auto)]

mod plant;
mod readers;
mod run;

pub use run::replay;

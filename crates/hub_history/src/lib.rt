//! A cell whose value threads change in turns, one at a time, in the order of their tickets. The
//! value stands for a list that only grows, and each thread has a pass that knows a beginning of it.
#![tactic(auto)]

mod cell;
mod chronicle;
mod ends;
mod passes;
mod plays;
mod steps;
mod turns;
mod view;

pub use cell::{HubCell, Pass};
pub use chronicle::{Chronicle, Job};
pub use ends::Unclosed;
pub use turns::Spent;

#[cfg(test)]
mod tests;

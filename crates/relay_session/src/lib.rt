//! The clients of a relay that is at hand: one event of a client is one look, and steps.
#![tactic(auto)]

mod asking;
mod client;
mod know;
mod sending;
mod turn;

pub use client::Client;
pub use turn::Turn;

//! The clients of a replay, by their names, and the lines that each of their events writes.
#![tactic(auto)]

mod clients;
mod know;
mod laws;
mod looking;
mod named;
mod opening;
#[cfg(test)]
mod tests;

pub use clients::Clients;
pub use laws::{clients_are_map, served_stay};

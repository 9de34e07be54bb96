//! Tests of the crates that keep a history and of what waits, and the blocks that these and other tests
//! speak of.
#![tactic(auto)]

pub mod blocks;
#[cfg(test)]
mod follow;
#[cfg(test)]
mod forks;
#[cfg(test)]
mod ids;
#[cfg(test)]
mod links;
#[cfg(test)]
mod rooms;
#[cfg(test)]
mod trees;

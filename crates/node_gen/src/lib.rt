//! A node's lines, made by a random sequence: a main line of blocks, and forks beside it.
#![tactic(auto)]

mod generator;
mod lines;

pub use generator::{BLOCKS_MAX, Generator, generate, push_opening};

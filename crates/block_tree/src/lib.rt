//! A history as a tree of slips: by place, by id, and along each path.
#![tactic(auto)]

mod slips;
mod tree;

pub use slips::BLOCKS_MAX;
pub use tree::BlockTree;

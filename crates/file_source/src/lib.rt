//! Blocks from the files of a shelf, each by its slip.
#![tactic(auto)]

mod places;
mod search;
mod source;

pub use places::fetch;
pub use search::next_block;
pub use source::BlockSource;

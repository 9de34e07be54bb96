//! A reader of a replay: the text of its node is read as lines, their blocks are brought to a relay, and
//! what became of them is told as lines.
#![tactic(auto)]

mod blocks;
mod greeting;
mod reader;
mod reading;
mod single;

pub use reader::NodeReader;

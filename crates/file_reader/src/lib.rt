//! A container on a shelf, read message by message.
#![tactic(auto)]

mod reader;

pub use reader::FileReader;

//! The lines of a node, read into blocks and printed.
#![tactic(auto)]

mod faults;
mod fields;
mod init;
mod laws;
mod print;
mod reader;
mod words;

pub use faults::LineFault;
pub use laws::{printed_is_read, text_goes_on};
pub use print::{print_block, print_init};
pub use reader::LineReader;

//! The lines that a client is sent, printed.
#![tactic(auto)]

mod errors;
mod pieces;
mod print;
mod words;

pub use errors::{ErrorLine, RequestField};
pub use print::{print_end, print_error, print_head, print_open, print_step};

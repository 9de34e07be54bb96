//! The lines that a client is sent, read.
#![tactic(auto)]

mod errors;
mod lines;
mod parts;
mod quoted;
mod reader;
mod replies;

pub use reader::read_reply;
pub use replies::{Reply, ReplyFault};

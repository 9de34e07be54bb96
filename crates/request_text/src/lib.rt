//! The line that a client sends to ask for blocks: printed, and read.
#![tactic(auto)]

mod asked;
mod fault;
mod laws;
mod members;
mod parse;
mod print;

pub use fault::RequestFault;
pub use laws::one_answer;
pub use parse::parse_request;
pub use print::print_request;

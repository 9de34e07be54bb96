//! The lines of a replay, appended to a text.
#![tactic(auto)]

mod answers;
mod clients;
mod laws;
mod parts;
mod relay;
#[cfg(test)]
mod tests;
mod words;

pub use answers::{push_bad_line, push_kind_fault, push_taken};
pub use clients::{push_not_yet, push_over, push_replies};
pub use laws::{answers_are_told, replies_are_lines, texts_are_errors};
pub use relay::{push_load_fault, push_loaded, push_merged};

//! The command that says what a cursor's text stands for.
#![tactic(auto)]

mod cursor;
mod run;

pub use cursor::CursorStop;
pub use run::run_cursor;

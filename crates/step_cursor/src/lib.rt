//! Cursors: where a client goes on, as a value and as a text.
#![tactic(auto)]

mod cursor;
mod form;
mod laws;
mod parse;
mod print;
mod read;
mod refs;

pub use cursor::{Cursor, CursorFault, MisfitField, Request, Tail};
pub use laws::printed_is_read;
pub use parse::parse_cursor;
pub use print::{print_cursor, push_cursor};
pub use refs::{CursorView, RefView};

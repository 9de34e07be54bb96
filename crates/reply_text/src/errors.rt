//! Why a session was refused or broke off.

use block_record::Id;
use outer_world::FileName;
use step_cursor::MisfitField;

/// The part of a request that can't be read.
#[derive(Clone, Copy, PartialEq, Eq, Debug)]
pub enum RequestField {
    /// The line is no JSON object.
    Shape,
    /// A member has another name than the four.
    Extra,
    Start,
    Stop,
    FinalOnly,
    Cursor,
}

/// Why a session was refused or broke off, as its last line tells it.
#[derive(Debug, Drop)]
pub enum ErrorLine {
    BadRequest { field: RequestField },
    /// The request has too many bytes.
    TooLong,
    /// The cursor's text is none; `at` is the place of its first bad part.
    Malformed { at: u8 },
    /// The cursor names a block that is not held.
    Unknown { id: Id },
    /// The cursor doesn't fit the history.
    Misfit { field: MisfitField },
    /// The stop is below the number of the end.
    StopBelow { end: u64 },
    /// The shelf failed.
    ShelfFault,
    /// A file is not of its form, at this byte.
    ShelfBad { name: FileName, at: u64 },
    /// A file is missing.
    Missing { name: FileName },
    /// A file has another block under this id.
    StoredOther { num: u64, id: Id },
    /// All tickets were drawn.
    Spent,
    /// There was no memory.
    Mem,
}

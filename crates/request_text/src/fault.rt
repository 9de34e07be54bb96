//! Why a line is not read as a request.

use reply_text::RequestField;

/// Why a line is not read as a request.
#[derive(Clone, Copy, PartialEq, Eq, Debug)]
pub enum RequestFault {
    /// The first bad part.
    BadRequest { field: RequestField },
    /// The cursor's text is none of a cursor. `at` is the place of its first bad part.
    Malformed { at: u8 },
    /// There was no memory for the request.
    Mem,
}

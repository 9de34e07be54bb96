//! Laws of the texts of cursors. The functions have no body: their contracts are the laws.

ghost use Rattle.step_cursor.specs.Laws.{PrintedIsRead};

/// A printed text has no bad part, and a text without a bad part is that of a cursor.
pub fn printed_is_read()
    ensures { PrintedIsRead }
{}

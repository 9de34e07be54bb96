//! Laws of the line grammar. The functions have no body: their contracts are the laws.

ghost use Rattle.fire_lines.specs.Laws.{TextGoesOn, PrintedIsRead};

/// A text with a further piece gives the blocks that it gives without, and then perhaps more. One
/// with a fault gives the same with any further piece.
pub fn text_goes_on()
    ensures { TextGoesOn }
{}

/// A printed opening line and printed lines of blocks, none above the limit, are read as the kind
/// and the blocks that were printed, one line for each, with no fault.
pub fn printed_is_read()
    ensures { PrintedIsRead }
{}

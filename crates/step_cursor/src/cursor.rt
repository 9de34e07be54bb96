//! Cursors, and the requests that may bring one.

ghost use Rattle.std.specs.Prelude.{◌≡◌};
ghost use Rattle.step_cursor.specs.declared.cursor.CursorFault.TheVariants.{Mem};

use block_record::BlockRef;
use chain_model::{Mode, Place, Step};
use std::alloc::AllocError;

/// How much of a history was seen: its first `seen` blocks, in this run of the plant.
#[derive(Clone, Copy, PartialEq, Eq, Debug)]
pub struct Tail {
    /// The run, as its number.
    pub run: u64,
    /// The length of the history that the step was sent from, in blocks.
    pub seen: u64,
}

/// A step that a client was sent, and where the client stands after it.
#[derive(Clone, PartialEq, Eq, Debug, Drop)]
pub struct Cursor {
    pub step: Step,
    /// The block of the step.
    pub block: BlockRef,
    /// The place after the step.
    pub place: Place,
    pub tail: Option<Tail>,
}

/// What a client asks for.
#[derive(Clone, PartialEq, Eq, Debug, Drop)]
pub struct Request {
    /// The number of the first block that is wanted. With a cursor it isn't used.
    pub start: u64,
    /// The number of the last block that is wanted, and none for no end.
    pub stop: Option<u64>,
    pub mode: Mode,
    /// Where the client goes on, and none where it begins.
    pub cursor: Option<Cursor>,
}

/// The part of a cursor that doesn't fit a history.
#[derive(Clone, Copy, PartialEq, Eq, Debug)]
pub enum MisfitField {
    /// The block's number isn't that of the held one.
    Block,
    /// The end is missing, or its number isn't that of the held one.
    End,
    /// The lib is missing, its number isn't that of the held one, or it isn't on the final path or
    /// on the path of the end.
    Lib,
    /// The block isn't where a step of this kind has it.
    Step,
    /// More was seen than this run has.
    Seen,
}

/// Why a text isn't read as a cursor.
#[derive(Clone, Copy, PartialEq, Eq, Debug)]
pub enum CursorFault {
    /// The text is none of a cursor. `at` is the place of its first bad part, from 0 to 11.
    Malformed { at: u8 },
    /// There was no memory for the cursor.
    Mem,
}

impl From<AllocError> for CursorFault {
    ghost from_gives = { λ _ fault. fault ≡ Mem };

    fn from(_error: AllocError) -> CursorFault {
        CursorFault::Mem
    }
}

//! What lines say.

ghost use Rattle.std.specs.Prelude.{◌≡◌};
ghost use Rattle.reply_reader.specs.declared.replies.ReplyFault.TheVariants.{Mem};

use block_record::{Block, BlockRef, Bytes, TypeName};
use chain_model::Step as StepKind;
use std::alloc::{AllocError, AllocFailed};
use step_cursor::Cursor;

/// What a line of a session says.
#[derive(Debug, Drop)]
pub enum Reply {
    /// The first line: the type of the blocks, the run, and the place from which the first batch
    /// begins.
    Open {
        block_type: TypeName,
        run: u64,
        end: Option<BlockRef>,
        lib: Option<BlockRef>,
    },
    /// A step with its block and the cursor after it.
    Step {
        step: StepKind,
        block: Block,
        cursor: Cursor,
    },
    /// The end of a batch: the last block of its target, and the length of the history.
    Head {
        head: Option<BlockRef>,
        seen: u64,
    },
    /// The end of the session: the stop is final, or no block will come.
    End {
        done: bool,
    },
    /// The session was refused or broke off. The whole line, without its LF.
    Error {
        line: Bytes,
    },
}

/// Why a line was not read.
#[derive(Clone, Copy, PartialEq, Eq, Debug)]
pub enum ReplyFault {
    /// It is the text of no reply.
    BadReply,
    /// There was no memory for the reply.
    Mem,
}

impl From<AllocError> for ReplyFault {
    ghost from_gives = { λ _ fault. fault ≡ Mem };

    fn from(_error: AllocError) -> ReplyFault {
        ReplyFault::Mem
    }
}

impl<T: Drop> From<AllocFailed<T>> for ReplyFault {
    ghost from_gives = { λ _ fault. fault ≡ Mem };

    fn from(_error: AllocFailed<T>) -> ReplyFault {
        ReplyFault::Mem
    }
}

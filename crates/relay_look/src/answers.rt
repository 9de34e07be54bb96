//! What a look is answered.

use block_record::Id;
use chain_model::Place;
use fork_db::Batch;
use std::alloc::AllocError;
use step_cursor::MisfitField;

/// Where a client stands.
#[derive(Debug, Drop)]
pub enum Position {
    /// At the start of its request.
    Start,
    /// At the place that an earlier batch reached.
    At(Place),
}

/// What a client gets next. Each `len` is the number of blocks of the history.
#[derive(Drop)]
pub enum Look {
    /// These steps. At the start there may be none.
    Batch(Batch),
    /// Nothing yet.
    NotYet { len: u64 },
    /// Nothing any more: the stop is final.
    Done { len: u64 },
    /// Nothing any more: no block will come.
    Closing { len: u64 },
}

/// Why a look was refused.
#[derive(Debug, Drop)]
pub enum LookFault {
    /// The cursor names a block that is not known, the first of its block, end and lib.
    Unknown { id: Id },
    /// The cursor does not fit the history; the first field that is wrong.
    Misfit { field: MisfitField },
    /// The stop is below the number of the end, where the client stands.
    StopBelow { end: u64 },
    /// There was no memory.
    Mem,
}

impl From<AllocError> for LookFault {
    ghost use Rattle.std.specs.Prelude.{◌≡◌};
    ghost use Rattle.relay_look.specs.declared.answers.LookFault.TheVariants.{Mem};

    ghost from_gives = { λ _ fault. fault ≡ Mem };

    fn from(_: AllocError) -> LookFault {
        LookFault::Mem
    }
}

//! What an offered block is answered.

use relay_model::Conflict;
use std::alloc::AllocError;

/// What became of an offered block.
#[derive(Debug, Drop)]
pub enum Offered {
    /// It is in the history, at `from`, with the waiting blocks that followed it: `count` blocks in
    /// all. `dropped` are the waiting blocks that contradicted the history, in the order of dropping.
    Admitted {
        from: u64,
        count: u64,
        dropped: Vec<Conflict>,
    },
    /// The same block is held already.
    Duplicate,
    /// It waits for its parent.
    Waiting,
    /// Its number is below the first one that is taken.
    Early,
    /// It is not above the root, or not above the final tip and without a held parent.
    Stale,
}

/// Why an offered block was refused.
#[derive(Debug, Drop)]
pub enum OfferFault {
    /// The relay is closed, with a history of so many blocks. An intake alone is never closed.
    Closed { len: u64 },
    /// The block contradicts one that is held.
    Conflict(Conflict),
    /// The history has so many blocks, and this many more would pass the limit.
    HistoryFull { len: u64, need: u64 },
    /// So many blocks with so many bytes of payloads wait, and one more would pass a limit.
    WaitFull { blocks: u64, bytes: u64 },
    /// There was no memory.
    Mem,
}

impl From<AllocError> for OfferFault {
    ghost use Rattle.std.specs.Prelude.{◌≡◌};
    ghost use Rattle.block_intake.specs.declared.answers.OfferFault.TheVariants.{Mem};

    ghost from_gives = { λ _ fault. fault ≡ Mem };

    fn from(_: AllocError) -> OfferFault {
        OfferFault::Mem
    }
}

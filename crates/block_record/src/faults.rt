//! What is wrong with the bytes of a record.

ghost use Rattle.std.specs.Prelude.{◌≡◌};
ghost use Rattle.block_record.specs.declared.faults.RecordFault.TheVariants.{Mem};

use std::alloc::{AllocError, AllocFailed};

/// Why bytes were not decoded.
#[derive(Clone, Copy, PartialEq, Eq, Debug)]
pub enum RecordFault {
    /// The first byte of the first field that is cut or bad, or of what follows the record. A field
    /// with a length begins at its length.
    BadRecord { at: usize },
    /// There was no memory for the block.
    Mem,
}

impl From<AllocError> for RecordFault {
    ghost from_gives = { λ _ fault. fault ≡ Mem };

    fn from(_error: AllocError) -> RecordFault {
        RecordFault::Mem
    }
}

impl<T: Drop> From<AllocFailed<T>> for RecordFault {
    ghost from_gives = { λ _ fault. fault ≡ Mem };

    fn from(_error: AllocFailed<T>) -> RecordFault {
        RecordFault::Mem
    }
}

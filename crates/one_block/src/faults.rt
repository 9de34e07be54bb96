//! How a block's file was put, and why calls on stored blocks are refused.

use block_record::Slip;
use outer_world::{FileName, ShelfFail};
use std::alloc::AllocError;

/// How a block's file was put on a shelf.
#[derive(Clone, Copy, PartialEq, Eq, Debug)]
pub enum Put {
    /// It wasn't there and was written.
    Written,
    /// It was there and held the same block.
    Present,
}

/// Why a call on stored blocks was refused.
#[derive(PartialEq, Eq, Debug, Drop)]
pub enum StoreFault {
    /// The shelf failed. Its count has risen.
    ShelfFault,
    /// The bytes of this file from this place on, which were read in the call, are not of the format.
    ShelfBad { name: FileName, at: u64 },
    /// The file is not there.
    Missing { name: FileName },
    /// Another block is stored under the id of the one that was asked for.
    StoredOther { kept: Slip, read: Slip },
    /// The name of the offered block's file is that of a file with another block.
    NameClash { held: Slip, offered: Slip },
    /// There was no memory.
    Mem,
}

impl From<AllocError> for StoreFault {
    ghost use Rattle.std.specs.Prelude.{◌≡◌};
    ghost use Rattle.one_block.specs.declared.faults.StoreFault.TheVariants.{Mem};

    ghost from_gives = { λ _ fault. fault ≡ Mem };

    fn from(_error: AllocError) -> StoreFault {
        StoreFault::Mem
    }
}

impl From<ShelfFail> for StoreFault {
    ghost use Rattle.std.specs.Prelude.{◌≡◌};
    ghost use Rattle.one_block.specs.StoreFaults.{fault_of};

    ghost from_gives = { λ fail fault. fault ≡ fault_of fail };

    fn from(fail: ShelfFail) -> StoreFault {
        match fail {
            ShelfFail::Failed => StoreFault::ShelfFault,
            ShelfFail::Mem => StoreFault::Mem,
        }
    }
}

//! Why a block was not taken.

use block_relay::OfferFault;
use one_block::StoreFault;
use outer_world::ShelfFail;
use std::alloc::AllocError;

/// Why a block was not taken.
#[derive(Debug, Drop)]
pub enum TakeFault {
    /// The relay refused the offer.
    Offer(OfferFault),
    /// A call on the shelf was refused, or there was no memory for one.
    Store(StoreFault),
}

impl From<StoreFault> for TakeFault {
    ghost use Rattle.std.specs.Prelude.{◌≡◌};
    ghost use Rattle.block_reader.specs.declared.faults.TakeFault.TheVariants.{Store};

    ghost from_gives = { λ fault taken. taken ≡ Store fault };

    fn from(fault: StoreFault) -> TakeFault {
        TakeFault::Store(fault)
    }
}

impl From<ShelfFail> for TakeFault {
    ghost use Rattle.std.specs.Prelude.{◌≡◌};
    ghost use Rattle.one_block.specs.StoreFaults.{fault_of};
    ghost use Rattle.block_reader.specs.declared.faults.TakeFault.TheVariants.{Store};

    ghost from_gives = { λ fail taken. taken ≡ Store (fault_of fail) };

    fn from(fail: ShelfFail) -> TakeFault {
        TakeFault::Store(StoreFault::from(fail))
    }
}

impl From<AllocError> for TakeFault {
    ghost use Rattle.std.specs.Prelude.{◌≡◌};
    ghost use Rattle.one_block.specs.declared.faults.StoreFault.TheVariants.{Mem};
    ghost use Rattle.block_reader.specs.declared.faults.TakeFault.TheVariants.{Store};

    ghost from_gives = { λ _ taken. taken ≡ Store Mem };

    fn from(_: AllocError) -> TakeFault {
        TakeFault::Store(StoreFault::Mem)
    }
}

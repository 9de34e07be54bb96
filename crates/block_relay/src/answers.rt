//! Why a kind of nodes is refused.

use block_record::TypeName;
use std::alloc::AllocError;

/// Why a kind of nodes was refused.
#[derive(Debug, Drop)]
pub enum KindFault {
    /// Another type of blocks is kept.
    KindClash { held: TypeName, offered: TypeName },
    /// There was no memory.
    Mem,
}

impl From<AllocError> for KindFault {
    ghost use Rattle.std.specs.Prelude.{◌≡◌};
    ghost use Rattle.block_relay.specs.declared.answers.KindFault.TheVariants.{Mem};

    ghost from_gives = { λ _ fault. fault ≡ Mem };

    fn from(_: AllocError) -> KindFault {
        KindFault::Mem
    }
}

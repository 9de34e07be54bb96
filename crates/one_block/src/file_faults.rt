//! Why a file was refused.

use block_record::TypeName;
use std::alloc::AllocError;

/// Why a file was refused.
#[derive(PartialEq, Eq, Debug, Drop)]
pub enum FileFault {
    /// The bytes of the file from this place on are not of its form. The place of a name that is of
    /// another form, or does not fit the block inside, is 0.
    Bad { at: u64 },
    /// The file has another type than the files before it.
    OtherType { held: TypeName, offered: TypeName },
    /// There was no memory.
    Mem,
}

impl From<AllocError> for FileFault {
    ghost use Rattle.std.specs.Prelude.{◌≡◌};
    ghost use Rattle.one_block.specs.declared.file_faults.FileFault.TheVariants.{Mem};

    ghost from_gives = { λ _ fault. fault ≡ Mem };

    fn from(_error: AllocError) -> FileFault {
        FileFault::Mem
    }
}

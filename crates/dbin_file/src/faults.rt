//! What is wrong with a container.

ghost use Rattle.std.specs.Prelude.{◌≡◌};
ghost use Rattle.dbin_file.specs.declared.faults.DbinFault.TheVariants.{Mem};

use std::alloc::{AllocError, AllocFailed};

/// The first fault of a container. Places are counted from its first byte, which is at 0.
#[derive(Clone, Copy, PartialEq, Eq, Debug)]
pub enum DbinFault {
    /// The first byte that is other than in the mark, or is not one of a type's; 5 where the type's
    /// length is not from 1 to 255.
    NotDbin { at: u64 },
    /// The version's byte is not 1.
    BadVersion { byte: u8 },
    /// The message whose length begins at `at` has more bytes than a message has.
    MessageTooLong { at: u64, length: u32 },
    /// The container ends in its header, and then `at` is 0, or in the message whose length begins
    /// at `at`.
    Truncated { at: u64 },
    /// There was no memory for what the container has.
    Mem,
}

impl From<AllocError> for DbinFault {
    ghost from_gives = { λ _ fault. fault ≡ Mem };

    fn from(_error: AllocError) -> DbinFault {
        DbinFault::Mem
    }
}

impl<T: Drop> From<AllocFailed<T>> for DbinFault {
    ghost from_gives = { λ _ fault. fault ≡ Mem };

    fn from(_error: AllocFailed<T>) -> DbinFault {
        DbinFault::Mem
    }
}

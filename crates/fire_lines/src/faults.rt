//! What is wrong with a line.

ghost use Rattle.std.specs.Prelude.{◌≡◌};
ghost use Rattle.fire_lines.specs.declared.faults.LineFault.TheVariants.{Mem};

use std::alloc::{AllocError, AllocFailed};

/// The first fault of a run's text, with the number of its line from 1.
#[derive(Clone, Copy, PartialEq, Eq, Debug)]
pub enum LineFault {
    /// The line has more bytes than the limit.
    TooLong { line: u64 },
    /// The opening line has no known version or no block type.
    BadInit { line: u64 },
    /// A second opening line has another version or block type.
    InitChanged { line: u64 },
    /// A block line stands before the opening line.
    NoInit { line: u64 },
    /// The field with this number, from 1 to 7, is bad or missing; 8 where more follows.
    BadField { line: u64, field: u8 },
    /// There was no memory to keep what the line says.
    Mem,
}

impl From<AllocError> for LineFault {
    ghost from_gives = { λ _ fault. fault ≡ Mem };

    fn from(_error: AllocError) -> LineFault {
        LineFault::Mem
    }
}

impl<T: Drop> From<AllocFailed<T>> for LineFault {
    ghost from_gives = { λ _ fault. fault ≡ Mem };

    fn from(_error: AllocFailed<T>) -> LineFault {
        LineFault::Mem
    }
}

//! Why work on the disk was given up, and how failures are counted.

ghost use Rattle.std.specs.Prelude.{◌≡◌, Ok, IsErr, MatchResult};
ghost use Rattle.outer_world.specs.Shelves.{HasShelfCause};

use outer_world::ShelfFail;
use std::alloc::{AllocError, AllocFailed};
use std::io;

/// Why work on the disk was given up.
#[derive(Clone, Copy, Debug)]
pub(crate) enum Fault {
    /// The disk or the system refused it, or a name would leave the folder.
    Failed,
    /// There was no memory.
    Mem,
}

impl From<AllocError> for Fault {
    fn from(_: AllocError) -> Fault {
        Fault::Mem
    }
}

impl<T: Drop> From<AllocFailed<T>> for Fault {
    fn from(_: AllocFailed<T>) -> Fault {
        Fault::Mem
    }
}

impl From<io::Error> for Fault {
    fn from(error: io::Error) -> Fault {
        match error.kind() {
            io::ErrorKind::OutOfMemory => Fault::Mem,
            _ => Fault::Failed,
        }
    }
}

/// Counts a failure, and hands the answer on.
pub(crate) fn counted<T>(faults: &mut u64, answer: Result<T, Fault>) -> Result<T, ShelfFail>
    ensures answer { MatchResult answer (λ value. result ≡ Ok value) (λ _. IsErr result) }
    ensures cause { HasShelfCause faults.old faults.new result }
{
    match answer {
        Ok(value) => Ok(value),
        Err(Fault::Mem) => Err(ShelfFail::Mem),
        Err(Fault::Failed) => {
            *faults = faults.saturating_add(1);
            Err(ShelfFail::Failed)
        }
    }
}

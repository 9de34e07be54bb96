//! Why a text is no script.

ghost use Rattle.std.specs.Prelude.{◌≡◌};
ghost use Rattle.script_text.specs.declared.faults.LineFault.TheVariants as line;
ghost use Rattle.script_text.specs.declared.faults.ScriptFault.TheVariants as script;

use std::alloc::{AllocError, AllocFailed};

/// Why a text is no script.
#[derive(Clone, Copy, PartialEq, Eq, Debug)]
pub enum ScriptFault {
    /// This line, counted from 1, is the first bad one.
    BadScript { line: u64 },
    /// There was no memory.
    Mem,
}

/// Why a line was not read.
#[derive(Clone, Copy, PartialEq, Eq, Debug)]
pub enum LineFault {
    /// It says nothing that fits there.
    Bad,
    /// There was no memory.
    Mem,
}

impl From<AllocError> for LineFault {
    ghost from_gives = { λ _ fault. fault ≡ line.Mem };

    fn from(_error: AllocError) -> LineFault {
        LineFault::Mem
    }
}

impl<T: Drop> From<AllocFailed<T>> for LineFault {
    ghost from_gives = { λ _ fault. fault ≡ line.Mem };

    fn from(_error: AllocFailed<T>) -> LineFault {
        LineFault::Mem
    }
}

impl From<AllocError> for ScriptFault {
    ghost from_gives = { λ _ fault. fault ≡ script.Mem };

    fn from(_error: AllocError) -> ScriptFault {
        ScriptFault::Mem
    }
}

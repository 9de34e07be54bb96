//! Why a run of steps ends before its input does.

use relay_model::Conflict;

/// Why a block ends the run.
#[derive(Clone, PartialEq, Eq, Debug, Drop)]
pub enum Refusal {
    /// Two blocks contradict each other.
    Contradicts(Conflict),
    /// The history has `len` blocks, and `need` more would pass the limit.
    HistoryFull { len: u64, need: u64 },
    /// So many blocks with so many bytes of payloads wait, and one more would pass a limit.
    WaitFull { blocks: u64, bytes: u64 },
}

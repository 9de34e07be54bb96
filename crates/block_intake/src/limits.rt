//! How much an intake takes.

/// How much an intake takes.
#[derive(Clone, Copy, PartialEq, Eq, Debug)]
pub struct IntakeLimits {
    /// The blocks of the history.
    pub history: u64,
    /// The blocks that may wait for their parents.
    pub wait_blocks: u64,
    /// The bytes of the payloads of those.
    pub wait_bytes: u64,
}

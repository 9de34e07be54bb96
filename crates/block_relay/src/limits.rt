//! The limits of a plant.

ghost use Rattle.std.specs.Prelude.{◌≡◌};
ghost use Rattle.block_intake.specs.Intakes.{limits_in};
ghost use Rattle.block_relay.specs.Chronicle.{limits_told};

use block_intake::IntakeLimits;

/// How much a plant takes in and keeps.
#[derive(Clone, Copy, PartialEq, Eq, Debug)]
pub struct Limits {
    /// The bytes of a node's line.
    pub line: u64,
    /// The bytes of a client's request.
    pub request: u64,
    /// The blocks that may wait for their parents.
    pub wait_blocks: u64,
    /// The bytes of the payloads of those.
    pub wait_bytes: u64,
    /// The blocks of the history.
    pub history: u64,
    /// The steps of a chunk.
    pub chunk: u32,
    /// The deaths in a row after which a node is given up.
    pub deaths: u32,
    /// The blocks whose payloads are held.
    pub hold: u32,
}

/// The limits of what is taken in.
pub fn intake_limits(limits: Limits) -> IntakeLimits
    ensures { limits_in result ≡ limits_told limits }
{
    IntakeLimits {
        history: limits.history,
        wait_blocks: limits.wait_blocks,
        wait_bytes: limits.wait_bytes,
    }
}

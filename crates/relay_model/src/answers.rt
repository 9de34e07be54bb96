//! Blocks that contradict one another.

use block_record::Slip;

/// How a block contradicts one that is known.
#[derive(Clone, Copy, PartialEq, Eq, Debug)]
pub enum ConflictKind {
    /// They have one id, and aren't the same block.
    Id,
    /// The known one is the parent by id, and has another number than the block names.
    Parent,
    /// The known one is the final tip, and the block's claim doesn't agree with it.
    Finality,
}

/// A block that was refused or dropped, with the one that it contradicts.
#[derive(Clone, PartialEq, Eq, Debug, Drop)]
pub struct Conflict {
    pub kind: ConflictKind,
    pub held: Slip,
    pub offered: Slip,
}

//! Steps, and the places between them.

use block_record::{BlockRef, Id};

/// What a step does with a block.
#[derive(Clone, Copy, PartialEq, Eq, Debug)]
pub enum Step {
    /// The block follows the client's last one.
    New,
    /// The client's last block is taken back.
    Undo,
    /// A block that the client has is final.
    Final,
    /// The block follows the client's last one, and is final.
    NewFinal,
}

/// Which blocks a client follows.
#[derive(Clone, Copy, PartialEq, Eq, Debug)]
pub enum Mode {
    /// All of them, up to the head.
    Live,
    /// Final blocks alone.
    Final,
}

/// Where a client stands. A client that has received nothing has neither block.
#[derive(Clone, PartialEq, Eq, Debug, Drop)]
pub struct Place {
    /// The last block that it has.
    pub end: Option<BlockRef>,
    /// The last block that it knows to be final.
    pub lib: Option<BlockRef>,
}

/// A step with its block, as it is told to a client.
#[derive(Clone, PartialEq, Eq, Debug, Drop)]
pub struct PlainStep {
    pub step: Step,
    /// The number of the block.
    pub num: u64,
    /// The id of the block.
    pub id: Id,
}

//! Where blocks of a shelf were read, and those that were put by.

ghost use Rattle.std.specs.Prelude.{◌≡◌, IfSome};
ghost use Rattle.std.proofs.Props.{props};
ghost use Rattle.block_record.specs.Slips.{slip as slip_of_block};
ghost use Rattle.relay_model.specs.Soundness.{IsBlock};

use block_record::{Block, Slip};
use std::sync::Arc;

/// Where a block was read.
#[derive(Clone, Copy, PartialEq, Eq, Debug)]
pub enum Origin {
    /// In its own file of `one/`.
    OwnFile,
    /// In a file of merged blocks or of `forked/`, so it counts as stored once it is in the history.
    StoredFile,
}

/// A block that was put by.
#[derive(Drop)]
pub struct PutBy {
    pub slip: Slip,
    /// With its payload, where that may be offered later.
    pub block: Option<Arc<Block>>,
    ghost own: { IfSome block (λ b. slip ≡ slip_of_block b.value) } by { Prim.hlevel props },
    ghost fits: { IsBlock slip },
}

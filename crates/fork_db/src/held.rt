//! The blocks that are held with their payloads.

ghost use Rattle.std.specs.Prelude.{◌≡◌, ◌+◌, ◌<◌, ◌≤◌, ◌++◌, [], ◌∷◌, length, IfOk, OnOk, OnErr, None, Some, max, set};
ghost use Rattle.std.specs.List.{slice_get};
ghost use Rattle.std.specs.Option.{option_map};

use block_record::Block;
use std::alloc::{AllocError, Global};
use std::marker::Model;
use std::sync::Arc;

/// Blocks by place, each held until it is released. Contracts see them in order of arrival, and for
/// how many more there is room.
#[derive(Drop)]
pub struct HeldBlocks {
    blocks: Vec<Option<Arc<Block>>>,
    room: u32,
}

impl Model for HeldBlocks {
    ghost use Rattle.std.specs.Prelude.{◌≤◌, ◌+◌, vec_len, vec_capacity, map};
    ghost use Rattle.std.specs.Option.{option_map};
    ghost use Rattle.std.specs.Arc.{arc_value};
    ghost use Rattle.fork_db.specs.Held.{Held};

    ghost Value = { Held };

    ghost view = { λ t. record { blocks = map (option_map arc_value) t.blocks.items; room = t.room } };

    ghost invariant = { λ t. vec_len t.blocks + t.room ≤ vec_capacity t.blocks };
}

impl HeldBlocks {
    /// No block.
    pub fn new(alloc: Global) -> HeldBlocks
        ensures blocks { result.blocks ≡ [] }
        ensures room { result.room ≡ 0 }
    {
        HeldBlocks {
            blocks: Vec::new(alloc),
            room: 0,
        }
    }

    /// The block at a place, where it is held.
    pub fn get(&self, at: usize) -> Option<&Arc<Block>>
        requires { at < length self.now.blocks }
        ensures { slice_get self.now.blocks at ≡ Some (option_map (λ b. b.now.value) result) }
    {
        self.blocks[at].as_ref()
    }

    /// A further holder of the block at a place, where it is held.
    pub fn share(&self, at: usize) -> Result<Option<Arc<Block>>, AllocError>
        requires { at < length self.now.blocks }
        ensures { IfOk result
            (λ r. slice_get self.now.blocks at ≡ Some (option_map (λ b. b.value) r)) }
    {
        match self.get(at) {
            Some(block) => {
                let block = block.clone()?;
                Ok(Some(block))
            }
            None => Ok(None),
        }
    }

    /// Makes room for that many more blocks.
    pub fn reserve(&mut self, more: u32) -> Result<(), AllocError>
        ensures blocks { self.new.blocks ≡ self.old.blocks }
        ensures ok { OnOk result (more ≤ self.new.room) }
        ensures room { self.old.room ≤ self.new.room }
        ensures most { self.new.room ≤ max self.old.room more }
        ensures err { OnErr result (self.new.room ≡ self.old.room) }
    {
        if more <= self.room {
            return Ok(());
        }
        self.blocks.reserve(more as usize)?;
        self.room = more;
        Ok(())
    }

    /// Appends a block, which is held where it is given.
    pub fn push(&mut self, block: Option<Arc<Block>>)
        requires room { 0 < self.old.room }
        ensures blocks { self.new.blocks
            ≡ self.old.blocks ++ option_map (λ b. b.value) block ∷ [] }
        ensures room { self.new.room + 1 ≡ self.old.room }
    {
        self.blocks.push_reserved(block);
        self.room -= 1;
    }

    /// Gives up the block at a place.
    pub fn release(&mut self, at: usize)
        requires { at < length self.old.blocks }
        ensures blocks { self.new.blocks ≡ set self.old.blocks at None }
        ensures room { self.new.room ≡ self.old.room }
    {
        self.blocks[at] = None;
    }
}

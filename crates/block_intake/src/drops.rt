//! What an admission drops.

ghost use Rattle.std.specs.Prelude.{◌≡◌, ◌<◌, ◌+◌, ◌∷◌, [], OnOk, reverse};
ghost use Rattle.relay_model.specs.Offers.{conflict};

use crate::buffers::reserve_buffers;
use block_record::{Slip, SlipBuffer};
use relay_model::{Conflict, ConflictKind};
use std::alloc::{AllocError, Global};
use std::marker::Model;
use std::mem;

/// The conflicts of the waiting blocks that an admission drops. Its memory is taken before anything
/// changes, and what is not used serves the admissions after it. Contracts see the conflicts, the
/// last one first, and for how many more there is memory.
#[derive(Drop)]
pub struct Drops {
    conflicts: Vec<Conflict>,
    /// Memory for the held blocks of at least as many conflicts as may be dropped. A dropped block's
    /// own slip serves for the other.
    buffers: Vec<SlipBuffer>,
    left: usize,
}

impl Model for Drops {
    ghost use Rattle.std.specs.Prelude.{◌≤◌, ◌+◌, reverse, vec_len, vec_capacity};
    ghost use Rattle.block_intake.specs.Taking.{Dropping};

    ghost Value = { Dropping };

    ghost view = { λ d. record { conflicts = reverse d.conflicts.items; spare = d.left } };

    ghost invariant = { λ d. (d.left ≤ vec_len d.buffers)
        × (vec_len d.conflicts + d.left ≤ vec_capacity d.conflicts) };
}

impl Drops {
    /// Nothing is dropped, and there is no memory.
    pub fn new(alloc: Global) -> Drops
        ensures conflicts { result.conflicts ≡ [] }
        ensures spare { result.spare ≡ 0 }
    {
        Drops {
            conflicts: Vec::new(alloc),
            buffers: Vec::new(alloc),
            left: 0,
        }
    }

    /// Takes memory for so many, or what earlier admissions left.
    pub fn reserve(&mut self, alloc: Global, most: usize) -> Result<(), AllocError>
        ensures conflicts { self.new.conflicts ≡ self.old.conflicts }
        ensures spare { OnOk result (self.new.spare ≡ most) }
    {
        self.conflicts.reserve(most)?;
        reserve_buffers(alloc, most, &mut self.buffers)?;
        self.left = most;
        Ok(())
    }

    /// Drops a block that contradicts one that is held. It takes no memory.
    pub fn drop_block(&mut self, kind: ConflictKind, held: &Slip, offered: Slip)
        requires { 0 < self.old.spare }
        ensures conflicts { self.new.conflicts
            ≡ conflict kind held.now offered ∷ self.old.conflicts }
        ensures spare { self.new.spare + 1 ≡ self.old.spare }
    {
        let buffer = self.buffers.take_last();
        self.left -= 1;
        self.conflicts.push_reserved(Conflict {
            kind,
            held: buffer.copy(held),
            offered,
        });
    }

    /// Gives out what was dropped, in the order of dropping. It takes no memory.
    pub fn finish(&mut self, alloc: Global) -> Vec<Conflict>
        ensures told { reverse result.items ≡ self.old.conflicts }
        ensures conflicts { self.new.conflicts ≡ [] }
    {
        if self.conflicts.is_empty() {
            return Vec::new(alloc);
        }
        self.left = 0;
        mem::replace(&mut self.conflicts, Vec::new(alloc))
    }
}

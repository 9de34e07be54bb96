//! Slips by place and by id.

ghost use Rattle.std.specs.Prelude.{◌≡◌, ◌+◌, ◌<◌, ◌≤◌, [], ◌∷◌, length, OnOk, OnErr, IsOk, IsErr, max, map, Some, false};
ghost use Rattle.std.specs.List.{slice_get};
ghost use Rattle.std.specs.Option.{option_copied};
ghost use Rattle.chain_model.specs.Ancestry.{has_id, find_id};
ghost use Rattle.block_tree.specs.Places.{place_of, slip_at};

use block_record::{Id, Slip};
use indexmap::{Equivalent, IndexSet};
use link_rows::PLACES_MAX;
use std::alloc::{AllocError, Global};
use std::hash::{Hash, Hasher};
use std::marker::Model;

/// How many slips there can be at most.
pub const BLOCKS_MAX: u64 = PLACES_MAX;

/// A slip that is found by its id.
#[derive(Drop)]
pub struct SlipById {
    slip: Slip,
}

impl PartialEq for SlipById {
    ghost use Rattle.block_tree.specs.Keys.{same_key, same_key_partial_equiv};

    ghost eq = { same_key };

    ghost laws = { same_key_partial_equiv };

    fn eq(&self, other: &SlipById) -> bool {
        self.slip.id == other.slip.id
    }
}

impl Eq for SlipById {
    ghost use Rattle.block_tree.specs.Keys.{same_key_equiv};

    ghost laws = { same_key_equiv };
}

impl Hash for SlipById {
    ghost use Rattle.std.specs.Prelude.{[], ◌∷◌};
    ghost use Rattle.block_tree.specs.Keys.{same_key_hash};

    ghost hash_input = { λ s. s.slip.id ∷ [] };

    ghost respects_eq = { same_key_hash.fed };

    fn hash<H: Hasher>(&self, state: &mut H) {
        self.slip.id.hash(state);
    }
}

impl Equivalent<SlipById> for &Id {
    ghost use Rattle.block_record.specs.Ids.{same_id, same_id_hash, same_id_equiv};

    ghost equivalent = { λ q s. same_id q.now s.slip.id };

    ghost respects_hash = { λ q s. same_id_hash.fed q.now s.slip.id };

    ghost respects_eq = { λ q x y. same_id_equiv.congr q.now x.slip.id y.slip.id };

    fn equivalent(&self, key: &SlipById) -> bool {
        **self == key.slip.id
    }
}

/// Slips, by place and by id. Contracts see the history, the newest block first, and the room.
#[derive(Drop)]
pub struct Slips {
    slips: IndexSet<SlipById>,
    room: u32,
}

impl Model for Slips {
    ghost use Rattle.std.specs.Prelude.{◌≤◌, ◌+◌, length};
    ghost use Rattle.indexmap.specs.IndexSet.{spare};
    ghost use Rattle.block_tree.specs.Places.{Blocks, HasIdsOnce, history_of};
    ghost use Rattle.block_tree.specs.declared.slips.TheConstants.{BLOCKS_MAX};

    ghost Value = { Blocks };

    ghost view = { λ t. record { history = history_of t.slips.keys; room = t.room } };

    ghost invariant = { λ t. HasIdsOnce (history_of t.slips.keys)
        × (t.room ≤ spare t.slips)
        × (length t.slips.keys + t.room ≤ BLOCKS_MAX) };
}

impl Slips {
    /// No slip.
    pub fn new(alloc: Global) -> Slips
        ensures history { result.history ≡ [] }
        ensures room { result.room ≡ 0 }
    {
        Slips {
            slips: IndexSet::new(alloc),
            room: 0,
        }
    }

    /// How many slips there are.
    pub fn len(&self) -> usize
        ensures len { result ≡ length self.now.history }
        ensures small { result + self.now.room ≤ BLOCKS_MAX }
    {
        self.slips.len()
    }

    /// For how many more slips there is room.
    pub fn room(&self) -> u64
        ensures { result ≡ self.now.room }
    {
        u64::from(self.room)
    }

    /// The slip at a place.
    pub fn slip(&self, at: usize) -> &Slip
        requires { at < length self.now.history }
        ensures { slip_at self.now.history at ≡ Some result.now }
    {
        slip_in(self.slips.as_slice(), at)
    }

    /// The place of the block with this id.
    pub fn find(&self, id: &Id) -> Option<usize>
        ensures { result ≡ place_of self.now.history id.now }
    {
        self.slips.get_index_of(id)
    }

    /// The block with this id.
    pub fn find_slip(&self, id: &Id) -> Option<&Slip>
        ensures { option_copied result ≡ find_id self.now.history id.now }
    {
        match self.find(id) {
            Some(at) => Some(self.slip(at)),
            None => None,
        }
    }

    /// Makes room for that many more slips. It is refused where they would be more than
    /// `BLOCKS_MAX`, or for want of memory.
    pub fn reserve(&mut self, more: u64) -> Result<(), AllocError>
        ensures history { self.new.history ≡ self.old.history }
        ensures ok { OnOk result (more ≤ self.new.room) }
        ensures room { self.old.room ≤ self.new.room }
        ensures most { self.new.room ≤ max self.old.room more }
        ensures err { OnErr result (self.new.room ≡ self.old.room) }
        ensures ready { more ≤ self.old.room → IsOk result }
        ensures limited { BLOCKS_MAX < length self.old.history + more → IsErr result }
    {
        if more <= u64::from(self.room) {
            return Ok(());
        }
        let len = self.slips.len() as u64;
        if more > BLOCKS_MAX - len {
            return Err(AllocError);
        }
        self.slips.reserve(more as usize)?;
        self.room = more as u32;
        Ok(())
    }

    /// Appends a slip.
    pub fn push(&mut self, slip: Slip)
        requires room { 0 < self.old.room }
        requires fresh { has_id self.old.history slip.id ≡ false }
        ensures history { self.new.history ≡ slip ∷ self.old.history }
        ensures room { self.new.room + 1 ≡ self.old.room }
    {
        let _ = self.slips.insert(SlipById { slip });
        self.room -= 1;
    }
}

/// The slip at an index.
fn slip_in(slips: &[SlipById], at: usize) -> &Slip
    requires { at < length slips.now }
    ensures { slice_get (map (λ s. s.slip) slips.now) at ≡ Some result.now }
{
    &slips[at].slip
}

//! The room.

ghost use Rattle.std.specs.Prelude.{◌≡◌, ◌<◌, ◌≤◌, ◌^◌, ◌+◌, ℕ, List, Bool, [], filter, length, if◌then◌else◌, IfNone, IfOk, IfSome, IsSome, OnOk, OnErr, IsTrue, Some, false};
ghost use Rattle.std.specs.List.{AllZip};
ghost use Rattle.std.specs.Option.{option_copied, option_map};
ghost use Rattle.block_record.specs.declared.blocks.Slip.{Slip as SlipOf};
ghost use Rattle.block_record.specs.Slips.{slip as slip_of_block};
ghost use Rattle.chain_model.specs.Ancestry.{find_id, has_id};
ghost use Rattle.relay_model.specs.Soundness.{IsDistinct};
ghost use Rattle.relay_model.specs.Worlds.{descendants as descendants_in, descends as descends_in, next_waiting, room_bytes};
ghost use Rattle.block_tree.specs.Places.{slip_at, slip_of};
ghost use Rattle.block_record.specs.Ids.{same_id};
ghost use Rattle.wait_room.specs.Children.{children_at, IsSame};
ghost use Rattle.wait_room.specs.Numbers.{number_at, same_num};
ghost use Rattle.wait_room.specs.Rooms.{AreKept, IsOwnSlip, children_in, find_block, fits_in, has_child as has_child_in, linked_in, room_above, room_without, with_block};

use crate::children::{
    Children, add_child, count_children, drop_children, latest_child, remove_child,
};
use crate::holds::Holds;
use crate::numbers::{add_number, all_above, drop_numbers, remove_number};
use crate::scans::{bytes_of, keep_above, least_linked, only_linked, push_reserved};
use crate::waiters::Waiter;
use block_record::{Block, Id, Slip};
use indexmap::IndexSet;
use std::alloc::{AllocError, Global};
use std::collections::{BTreeMap, HashMap};
use std::marker::Model;
use std::sync::Arc;

/// Blocks that wait for their parents. Contracts see their slips and beside each the block, where it
/// is kept, the latest arrival first, and the two limits.
#[derive(Drop)]
pub struct WaitRoom {
    waiters: IndexSet<Waiter>,
    /// How many blocks wait, by their parents' ids.
    children: HashMap<Id, Children>,
    /// The bytes of the payloads that wait.
    bytes: u64,
    /// How many blocks wait with each number.
    numbers: BTreeMap<u64, u64>,
    blocks_max: u64,
    bytes_max: u64,
}

impl Model for WaitRoom {
    ghost use Rattle.std.specs.Prelude.{◌≡◌, ◌≤◌, ℕ, List, length};
    ghost use Rattle.std.specs.List.{All};
    ghost use Rattle.relay_model.specs.Soundness.{IsDistinct};
    ghost use Rattle.relay_model.specs.Worlds.{room_bytes};
    ghost use Rattle.wait_room.specs.Children.{children_at};
    ghost use Rattle.wait_room.specs.Numbers.{number_at, numbered_in};
    ghost use Rattle.wait_room.specs.Rooms.{HasOwnSlip, Room, children_in, held_of, slips_of, waiting_of};

    ghost Value = { Room };

    ghost view = { λ t. record {
      waiting = waiting_of t.waiters.keys;
      held = held_of t.waiters.keys;
      most_blocks = t.blocks_max;
      most_bytes = t.bytes_max;
    } };

    ghost invariant = { λ t. IsDistinct (slips_of t.waiters.keys)
        × All HasOwnSlip t.waiters.keys
        × ((n : ℕ) → number_at t.numbers n ≡ numbered_in (slips_of t.waiters.keys) n)
        × (t.bytes ≡ room_bytes (slips_of t.waiters.keys))
        × (t.bytes ≤ t.bytes_max)
        × (length t.waiters.keys ≤ t.blocks_max)
        × ((id : List ℕ) → children_at t.children id ≡ children_in (slips_of t.waiters.keys) id) };
}

impl WaitRoom {
    /// No block waits, and at most so many blocks and bytes of payloads may.
    pub fn new(alloc: Global, blocks: u64, bytes: u64) -> WaitRoom
        ensures waiting { result.waiting ≡ [] }
        ensures held { result.held ≡ [] }
        ensures most_blocks { result.most_blocks ≡ blocks }
        ensures most_bytes { result.most_bytes ≡ bytes }
    {
        WaitRoom {
            waiters: IndexSet::new(alloc),
            children: HashMap::new(alloc),
            bytes: 0,
            numbers: BTreeMap::new(alloc),
            blocks_max: blocks,
            bytes_max: bytes,
        }
    }

    /// How many blocks wait. Each that is kept has its own slip, and no two have one id.
    pub fn blocks(&self) -> u64
        ensures count { result ≡ length self.now.waiting }
        ensures limit { result ≤ self.now.most_blocks }
        ensures small { result < 2 ^ 63 }
        ensures own { AllZip IsOwnSlip self.now.waiting self.now.held }
        ensures distinct { IsDistinct self.now.waiting }
    {
        self.waiters.len() as u64
    }

    /// The bytes of the payloads that wait.
    pub fn bytes(&self) -> u64
        ensures bytes { result ≡ room_bytes self.now.waiting }
        ensures limit { result ≤ self.now.most_bytes }
    {
        self.bytes
    }

    /// Whether one more block with a payload of that length passes no limit.
    pub fn fits(&self, length: u64) -> bool
        ensures { result ≡ fits_in self.now length }
    {
        self.blocks() < self.blocks_max && length <= self.bytes_max - self.bytes
    }

    /// The slip of the waiting block with this id.
    pub fn find(&self, id: &Id) -> Option<&Slip>
        ensures { option_copied result ≡ find_id self.now.waiting id.now }
    {
        // An empty room hashes nothing.
        if self.blocks() == 0 {
            return None;
        }
        match self.waiters.get(id) {
            Some(waiter) => Some(&waiter.slip),
            None => None,
        }
    }

    /// How many waiting blocks name the id as their parent's.
    pub fn children(&self, id: &Id) -> u64
        ensures { result ≡ children_in self.now.waiting id.now }
    {
        if self.blocks() == 0 {
            return 0;
        }
        count_children(&self.children, id)
    }

    /// Whether a waiting block names the id as its parent's.
    pub fn has_child(&self, id: &Id) -> bool
        ensures { result ≡ has_child_in self.now.waiting id.now }
    {
        0 < self.children(id)
    }

    /// How many waiting blocks have a chain of parent ids inside the room that leads to the id.
    pub fn descendants(&self, id: &Id) -> Result<u64, AllocError>
        ensures { IfOk result (λ n. n ≡ descendants_in self.now.waiting id.now) }
    {
        if !self.has_child(id) {
            return Ok(0);
        }
        Ok(self.count_descendants(id))
    }

    fn count_descendants(&self, id: &Id) -> u64
        ensures { result ≡ descendants_in self.now.waiting id.now }
    {
        let waiters = self.waiters.as_slice();
        let mut count = 0;
        for waiter in waiters {
            if self.descends(&waiter.slip, id) {
                count += 1;
            }
        }
        count
    }

    /// Whether the chain of parent ids leads from the block to the id, in no more links than blocks
    /// wait: parent ids may go in a circle.
    fn descends(&self, slip: &Slip, id: &Id) -> bool
        ensures { result ≡ descends_in (length self.now.waiting) self.now.waiting id.now slip.now }
    {
        let mut at = slip;
        for _ in 0..self.blocks() {
            if at.parent_id == *id {
                return true;
            }
            match self.find(&at.parent_id) {
                Some(parent) => at = parent,
                None => return false,
            }
        }
        false
    }

    /// Lets a block wait, by its slip alone where it is not given. At an error nothing has changed.
    pub fn put(&mut self, slip: Slip, block: Option<Arc<Block>>) -> Result<(), AllocError>
        requires fits { IsTrue (fits_in self.old slip.length) }
        requires own { IfSome block (λ b. slip ≡ slip_of_block b.value) }
        requires fresh { has_id self.old.waiting slip.id ≡ false }
        ensures ok { OnOk result
            (self.new ≡ with_block self.old slip (option_map (λ b. b.value) block)) }
        ensures err { OnErr result (self.new ≡ self.old) }
        ensures kept { OnOk result (AreKept self.old → IsSome block → AreKept self.new) }
    {
        let bytes = self.bytes + u64::from(slip.length);
        self.waiters.reserve(1)?;
        count_slip(&mut self.children, &mut self.numbers, &slip)?;
        push_reserved(&mut self.waiters, Waiter { slip, block });
        self.bytes = bytes;
        Ok(())
    }

    /// Takes out, of the blocks whose parents are known, the one with the least number, among equals
    /// the earliest.
    pub fn take_next<H: Holds>(&mut self, known: &H) -> Option<(Slip, Option<Arc<Block>>)>
        ensures next { option_map (λ p. p.0) result
            ≡ next_waiting (H.history known.now) self.old.waiting }
        ensures own { IfSome result (λ p. IfSome p.1 (λ b. p.0 ≡ slip_of_block b.value)) }
        ensures block { IfSome result
            (λ p. find_block self.old p.0.id ≡ Some (option_map (λ b. b.value) p.1)) }
        ensures room { self.new
            ≡ room_without self.old (next_waiting (H.history known.now) self.old.waiting) }
        ensures kept { AreKept self.old → AreKept self.new }
        ensures given { AreKept self.old → IfSome result (λ p. IsSome p.1) }
    {
        let at = least_linked(self.waiters.as_slice(), known)?;
        Some(self.take_at(at))
    }

    /// The same as `take_next`, for a caller that knows how many of the blocks have known parents.
    /// Where it is one block, and it was the last to wait for the id, nothing is scanned.
    pub fn take_linked<H: Holds>(
        &mut self,
        known: &H,
        linked: u64,
        parent: &Id,
    ) -> Option<(Slip, Option<Arc<Block>>)>
        requires { linked ≡ linked_in (H.history known.now) self.old.waiting }
        ensures next { option_map (λ p. p.0) result
            ≡ next_waiting (H.history known.now) self.old.waiting }
        ensures own { IfSome result (λ p. IfSome p.1 (λ b. p.0 ≡ slip_of_block b.value)) }
        ensures block { IfSome result
            (λ p. find_block self.old p.0.id ≡ Some (option_map (λ b. b.value) p.1)) }
        ensures room { self.new
            ≡ room_without self.old (next_waiting (H.history known.now) self.old.waiting) }
        ensures kept { AreKept self.old → AreKept self.new }
        ensures given { AreKept self.old → IfSome result (λ p. IsSome p.1) }
        ensures left { IfSome result
            (λ _. linked ≡ linked_in (H.history known.now) self.new.waiting + 1) }
        ensures none { IfNone result (linked ≡ 0) }
    {
        let at = self.find_linked(known, linked, parent)?;
        Some(self.take_at(at))
    }

    /// Where the next block stands, of `linked` blocks whose parents are known.
    fn find_linked<H: Holds>(&self, known: &H, linked: u64, parent: &Id) -> Option<usize>
        requires { linked ≡ linked_in (H.history known.now) self.now.waiting }
        ensures least { slip_of self.now.waiting result
            ≡ next_waiting (H.history known.now) self.now.waiting }
        ensures range { IfSome result (λ at. at < length self.now.waiting) }
    {
        if linked == 0 {
            return None;
        }
        if linked == 1 {
            if let Some(at) = self.find_child(known, parent) {
                return Some(at);
            }
        }
        least_linked(self.waiters.as_slice(), known)
    }

    /// Where the latest child of the id stands, if its parent is known: no other block's is.
    fn find_child<H: Holds>(&self, known: &H, parent: &Id) -> Option<usize>
        requires { linked_in (H.history known.now) self.now.waiting ≡ 1 }
        ensures least { IfSome result (λ at. slip_at self.now.waiting at
            ≡ next_waiting (H.history known.now) self.now.waiting) }
        ensures range { IfSome result (λ at. at < length self.now.waiting) }
    {
        let latest = latest_child(&self.children, parent)?;
        let at = self.waiters.get_index_of(latest)?;
        only_linked(self.waiters.as_slice(), known, at)
    }

    /// Takes out the block at a place.
    fn take_at(&mut self, at: usize) -> (Slip, Option<Arc<Block>>)
        requires { at < length self.old.waiting }
        ensures slip { slip_at self.old.waiting at ≡ Some result.0 }
        ensures own { IfSome result.1 (λ b. result.0 ≡ slip_of_block b.value) }
        ensures block { find_block self.old result.0.id
            ≡ Some (option_map (λ b. b.value) result.1) }
        ensures room { self.new ≡ room_without self.old (Some result.0) }
        ensures counts { (p : SlipOf → Bool) → length (filter p self.old.waiting)
            ≡ length (filter p self.new.waiting) + (if p result.0 then 1 else 0) }
    {
        let Waiter { slip, block } = self.waiters.shift_remove_index(at).unwrap();
        self.bytes -= u64::from(slip.length);
        remove_child(&mut self.children, &slip.parent_id);
        remove_number(&mut self.numbers, slip.num);
        (slip, block)
    }

    /// Removes the blocks with a number of at most `num`.
    pub fn drop_through(&mut self, num: u64)
        ensures room { self.new ≡ room_above num self.old }
        ensures kept { AreKept self.old → AreKept self.new }
    {
        if all_above(&self.numbers, num) {
            return;
        }
        drop_children(&mut self.children, self.waiters.as_slice(), num);
        drop_numbers(&mut self.numbers, self.waiters.as_slice(), num);
        keep_above(&mut self.waiters, num);
        self.bytes = bytes_of(self.waiters.as_slice());
    }
}

/// Counts a block with its parent's id and its number. At an error nothing has changed.
fn count_slip(
    children: &mut HashMap<Id, Children>,
    numbers: &mut BTreeMap<u64, u64>,
    slip: &Slip,
) -> Result<(), AllocError>
    requires child { children_at children.old slip.now.parent_id + 1 < 2 ^ 64 }
    requires number { number_at numbers.old slip.now.num + 1 < 2 ^ 64 }
    ensures children { OnOk result ((id : List ℕ) → children_at children.new id
        ≡ children_at children.old id + (if same_id slip.now.parent_id id then 1 else 0)) }
    ensures numbers { OnOk result ((n : ℕ) → number_at numbers.new n
        ≡ number_at numbers.old n + (if same_num slip.now.num n then 1 else 0)) }
    ensures kept { OnErr result (IsSame children.old children.new
        × ((n : ℕ) → number_at numbers.new n ≡ number_at numbers.old n)) }
{
    add_number(numbers, slip.num)?;
    match add_child(children, &slip.parent_id, &slip.id) {
        Ok(()) => Ok(()),
        Err(fault) => {
            remove_number(numbers, slip.num);
            Err(fault)
        }
    }
}

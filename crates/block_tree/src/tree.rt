//! The tree of a history: its slips with the paths between them.

ghost use Rattle.std.specs.Prelude.{◌≡◌, ◌+◌, ◌*◌, ◌<◌, ◌≤◌, ◌^◌, [], ◌∷◌, ℕ, length, OnOk, OnErr, IsOk, IsErr, Some, find, nat_le, nat_lt, max, IfSome, ◌⊎◌, reverse};
ghost use Rattle.std.specs.List.{slice_get};
ghost use Rattle.std.specs.Option.{option_copied};
ghost use Rattle.block_record.specs.declared.blocks.Slip.{Slip as SlipOf};
ghost use Rattle.chain_model.specs.Ancestry.{ancestry, find_id, IsHistory};
ghost use Rattle.chain_model.specs.Finality.{on_path};
ghost use Rattle.link_rows.specs.Tree.{ancestors};
ghost use Rattle.block_tree.specs.Places.{place_of, slip_at, slip_of, parent_places, meeting, IsSkip};

use crate::slips::{BLOCKS_MAX, Slips};
use block_record::{Id, Slip};
use link_rows::{LinkCount, LinkRows, digits};
use std::alloc::{AllocError, Global};
use std::marker::Model;

/// A history by places. Contracts see the history with its newest block first, and for how many
/// more blocks there is room. A place counts the older blocks.
#[derive(Drop)]
pub struct BlockTree {
    slips: Slips,
    rows: LinkRows,
}

impl Model for BlockTree {
    ghost use Rattle.std.specs.Prelude.{◌≡◌, ◌≤◌};
    ghost use Rattle.chain_model.specs.Ancestry.{IsHistory};
    ghost use Rattle.block_tree.specs.Places.{Blocks, parent_places};

    ghost Value = { Blocks };

    ghost view = { λ t. t.slips };

    ghost invariant = { λ t. (t.rows.parents ≡ parent_places t.slips.history)
        × IsHistory t.slips.history
        × (t.slips.room ≤ t.rows.room) };
}

impl BlockTree {
    /// No block.
    pub fn new(alloc: Global) -> BlockTree
        ensures history { result.history ≡ [] }
        ensures room { result.room ≡ 0 }
    {
        BlockTree {
            slips: Slips::new(alloc),
            rows: LinkRows::new(alloc),
        }
    }

    /// How many blocks there are.
    pub fn len(&self) -> usize
        ensures len { result ≡ length self.now.history }
        ensures small { result + self.now.room ≤ BLOCKS_MAX }
        ensures sound { IsHistory self.now.history }
    {
        self.slips.len()
    }

    /// For how many more blocks there is room.
    pub fn room(&self) -> u64
        ensures { result ≡ self.now.room }
    {
        self.slips.room()
    }

    /// The slip at a place.
    pub fn slip(&self, at: usize) -> &Slip
        requires { at < length self.now.history }
        ensures { slip_at self.now.history at ≡ Some result.now }
    {
        self.slips.slip(at)
    }

    /// The place of the block with this id.
    pub fn find(&self, id: &Id) -> Option<usize>
        ensures { result ≡ place_of self.now.history id.now }
    {
        self.slips.find(id)
    }

    /// The block with this id.
    pub fn find_slip(&self, id: &Id) -> Option<&Slip>
        ensures { option_copied result ≡ find_id self.now.history id.now }
    {
        self.slips.find_slip(id)
    }

    /// How many blocks of its path are older than the block at a place.
    pub fn depth(&self, at: usize) -> u64
        requires { at < length self.now.history }
        ensures { (s : SlipOf) → slip_at self.now.history at ≡ Some s
            → result + 1 ≡ length (ancestry self.now.history s.id) }
    {
        self.rows.depth(at)
    }

    /// Makes room for that many more blocks. It is refused where they would be more than
    /// `BLOCKS_MAX`, or for want of memory.
    pub fn reserve(&mut self, more: u64) -> Result<(), AllocError>
        ensures history { self.new.history ≡ self.old.history }
        ensures ok { OnOk result (more ≤ self.new.room) }
        ensures room { self.old.room ≤ self.new.room }
        ensures most { self.new.room ≤ max self.old.room more }
        ensures err { OnErr result (self.new.room ≡ self.old.room) }
        ensures ready { more ≤ self.old.room → IsOk result }
        ensures limited { BLOCKS_MAX < length self.old.history + more → IsErr result }
    {
        self.rows.reserve(more)?;
        self.slips.reserve(more)
    }

    /// Appends a block that may come next, and gives its place. `parent` is its parent's place, and
    /// none for the first block.
    pub fn push(&mut self, slip: Slip, parent: Option<usize>) -> usize
        requires room { 0 < self.old.room }
        requires next { IsHistory (slip ∷ self.old.history) }
        requires parent { place_of self.old.history slip.parent_id ≡ parent }
        ensures history { self.new.history ≡ slip ∷ self.old.history }
        ensures place { result ≡ length self.old.history }
        ensures small { result < BLOCKS_MAX }
        ensures room { self.new.room + 1 ≡ self.old.room }
    {
        let at = self.slips.len();
        self.slips.push(slip);
        self.rows.push(parent);
        at
    }

    /// Whether the first block is on the path of the second.
    pub fn on_path<C: LinkCount>(&self, a: usize, b: usize, links: &mut C) -> bool
        requires a_range { a < length self.now.history }
        requires b_range { b < length self.now.history }
        ensures value { (x y : SlipOf) → slip_at self.now.history a ≡ Some x
            → slip_at self.now.history b ≡ Some y → result ≡ on_path self.now.history x y }
        ensures cost { (d : ℕ) → length self.now.history < 2 ^ d
            → C.count links.new ≤ C.count links.old + d }
    {
        let a_depth = self.rows.depth(a);
        if a_depth > self.rows.depth(b) {
            return false;
        }
        self.rows.up(b, a_depth, links) == a
    }

    /// The last block that is on both paths.
    pub fn meet<C: LinkCount>(&self, a: usize, b: usize, links: &mut C) -> usize
        requires a_range { a < length self.now.history }
        requires b_range { b < length self.now.history }
        ensures value { (x y : SlipOf) → slip_at self.now.history a ≡ Some x
            → slip_at self.now.history b ≡ Some y → slip_at self.now.history result
            ≡ meeting (ancestry self.now.history x.id) (ancestry self.now.history y.id) }
        ensures range { result < length self.now.history }
        ensures cost { (d : ℕ) → length self.now.history < 2 ^ d
            → C.count links.new ≤ C.count links.old + 1 + 3 * d }
    {
        self.rows.meet(a, b, links)
    }

    /// The block of the path at a depth, where the path is that deep.
    pub fn up<C: LinkCount>(&self, at: usize, depth: u64, links: &mut C) -> Option<usize>
        requires range { at < length self.now.history }
        ensures value { (y : SlipOf) → slip_at self.now.history at ≡ Some y
            → slip_of self.now.history result
            ≡ slice_get (reverse (ancestry self.now.history y.id)) depth }
        ensures range { IfSome result (λ p. p < length self.now.history) }
        ensures cost { (d : ℕ) → length self.now.history < 2 ^ d
            → C.count links.new ≤ C.count links.old + d }
    {
        if depth > self.rows.depth(at) {
            return None;
        }
        Some(self.rows.up(at, depth, links))
    }

    /// The last block of the path with a number of at most the limit.
    pub fn last_up_to<C: LinkCount>(&self, at: usize, limit: u64, links: &mut C) -> Option<usize>
        requires range { at < length self.now.history }
        ensures value { (s : SlipOf) → slip_at self.now.history at ≡ Some s
            → slip_of self.now.history result
            ≡ find (λ x. nat_le x.num limit) (ancestry self.now.history s.id) }
        ensures range { IfSome result (λ p. p < length self.now.history) }
        ensures cost { (d : ℕ) → length self.now.history < 2 ^ d
            → C.count links.new ≤ C.count links.old + d + 1 }
    {
        let num = self.slips.slip(at).num;
        if num <= limit {
            return Some(at);
        }
        let count = rounds(self.rows.depth(at), num - limit);
        let mut from = at;
        for i in 0..count {
            from = self.skip(from, limit, count - 1 - i, links);
        }
        self.rows.link(from, 0, links)
    }

    /// The block at the distance 2^k, where its number is above the limit too, else the block itself.
    fn skip<C: LinkCount>(&self, from: usize, limit: u64, k: u32, links: &mut C) -> usize
        requires range { from < length self.now.history }
        ensures value { IsSkip self.now.history
            (ancestors (parent_places self.now.history) from) (2 ^ k) limit from result }
        ensures cost { C.count links.new ≡ C.count links.old + C.price }
    {
        match self.rows.link(from, k, links) {
            Some(far) if self.slip(far).num > limit => far,
            _ => from,
        }
    }
}

/// How many links are tried: no ancestor is farther than the depth, and none at the distance of the
/// gap has a number above the limit.
fn rounds(depth: u64, gap: u64) -> u32
    ensures above { (depth < 2 ^ result) ⊎ (gap < 2 ^ result) }
    ensures least { 0 < result → 2 ^ result ≤ 2 * depth }
    ensures small { result ≤ 64 }
{
    let deep = digits(depth);
    let near = digits(gap);
    if deep <= near { deep } else { near }
}

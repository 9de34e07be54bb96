//! The head of a history, found without a scan as blocks come.

ghost use Rattle.std.specs.Prelude.{◌≡◌, ◌+◌, ◌-◌, ◌<◌, ◌≤◌, [], ◌∷◌, length, drop, OnOk, OnErr, IfSome, IfNone, ◌⊎◌, Some};
ghost use Rattle.std.specs.List.{All, Contains};
ghost use Rattle.std.specs.List.Sorted.{IsPermutation};
ghost use Rattle.std.specs.BinaryHeap.{heap_items, heap_len, heap_capacity, IsHeap, IsUpperBound};
ghost use Rattle.chain_model.specs.Finality.{final_tip, ClaimsAgree};
ghost use Rattle.chain_model.specs.Steps.{head};
ghost use Rattle.block_tree.specs.Places.{slip_at};
ghost use Rattle.fork_db.specs.declared.heads.Rival.{Rival as RivalOf};
ghost use Rattle.fork_db.specs.Heads.{IsRanked, IsRivalOf, HoldsTipAt, rival_cmp};

use block_tree::BlockTree;
use link_rows::Uncounted;
use std::alloc::{AllocError, Global};
use std::cmp::Reverse;
use std::collections::BinaryHeap;
use std::marker::Model;

/// A block that may become the head. The one with the greatest number comes first, and among
/// equals the oldest.
#[derive(Clone, Copy, PartialEq, Eq, PartialOrd, Ord, Drop)]
pub struct Rival {
    num: u64,
    place: Reverse<usize>,
}

/// The head of a history, and the blocks that may take its place. Contracts see the place of the
/// head, the rivals in any order, and for how many more blocks there is room.
#[derive(Drop)]
pub struct Heads {
    head: usize,
    rivals: BinaryHeap<Rival>,
    room: usize,
}

impl Model for Heads {
    ghost use Rattle.std.specs.Prelude.{◌≤◌, ◌+◌};
    ghost use Rattle.std.specs.BinaryHeap.{heap_items, heap_len, heap_capacity, IsHeap};
    ghost use Rattle.fork_db.specs.Heads.{Ranking, rival_cmp};

    ghost Value = { Ranking };

    ghost view = { λ h. record { head = h.head; rivals = heap_items h.rivals; room = h.room } };

    ghost invariant = { λ h. IsHeap rival_cmp (heap_items h.rivals)
        × (heap_len h.rivals + h.room ≤ heap_capacity h.rivals) };
}

impl Heads {
    /// The head of no block.
    pub fn new(alloc: Global) -> Heads
        ensures ranked { IsRanked [] result.head result.rivals }
        ensures room { result.room ≡ 0 }
    {
        Heads {
            head: 0,
            rivals: BinaryHeap::new(alloc),
            room: 0,
        }
    }

    /// The place of the head, and 0 where there is no block.
    pub fn head(&self) -> usize
        ensures { result ≡ self.now.head }
    {
        self.head
    }

    /// Makes room for that many more blocks.
    pub fn reserve(&mut self, more: u64) -> Result<(), AllocError>
        ensures head { self.new.head ≡ self.old.head }
        ensures rivals { self.new.rivals ≡ self.old.rivals }
        ensures ok { OnOk result (more ≤ self.new.room) }
        ensures room { self.old.room ≤ self.new.room }
        ensures err { OnErr result (self.new.room ≡ self.old.room) }
    {
        let more = more as usize;
        if more > self.room {
            self.rivals.reserve(more)?;
            self.room = more;
        }
        Ok(())
    }

    /// Takes in the newest block of a tree whose final tip is at the place `tip`. It takes no
    /// memory: at most one block joins the rivals.
    pub fn add(&mut self, tree: &BlockTree, tip: usize)
        requires room { 0 < self.old.room }
        requires some { 0 < length tree.now.history }
        requires tip { slip_at tree.now.history tip ≡ final_tip tree.now.history }
        requires agreed { ClaimsAgree tree.now.history }
        requires ranked { IsRanked (drop 1 tree.now.history) self.old.head self.old.rivals }
        ensures ranked { IsRanked tree.now.history self.new.head self.new.rivals }
        ensures head { slip_at tree.now.history self.new.head ≡ head tree.now.history }
        ensures room { self.new.room + 1 ≡ self.old.room }
    {
        let at = tree.len() - 1;
        self.room -= 1;
        if tree.on_path(tip, at, &mut Uncounted) {
            self.head = admit(&mut self.rivals, tree, tip, self.head);
        }
    }
}

/// Takes in the newest block, whose path has the final tip, and gives the place of the head. A head
/// that the tip rules out is dropped, and the best rival takes its place.
fn admit(rivals: &mut BinaryHeap<Rival>, tree: &BlockTree, tip: usize, head: usize) -> usize
    requires order { IsHeap rival_cmp (heap_items rivals.old) }
    requires room { heap_len rivals.old < heap_capacity rivals.old }
    requires some { 0 < length tree.now.history }
    requires tip { slip_at tree.now.history tip ≡ final_tip tree.now.history }
    requires agreed { ClaimsAgree tree.now.history }
    requires holds { HoldsTipAt tree.now.history (length tree.now.history - 1) }
    requires ranked { IsRanked (drop 1 tree.now.history) head (heap_items rivals.old) }
    ensures ranked { IsRanked tree.now.history result (heap_items rivals.new) }
    ensures order { IsHeap rival_cmp (heap_items rivals.new) }
    ensures len { heap_len rivals.new ≤ heap_len rivals.old + 1 }
    ensures capacity { heap_capacity rivals.old ≤ heap_capacity rivals.new }
{
    let at = tree.len() - 1;
    // The head before is on the path of this one, and so it needs no place among the rivals.
    if tree.on_path(head, at, &mut Uncounted) {
        return at;
    }
    let newest = rival_at(tree, at);
    let old = rival_at(tree, head);
    if old.num < newest.num {
        keep(rivals, old);
        return at;
    }
    keep(rivals, newest);
    if tree.on_path(tip, head, &mut Uncounted) {
        return head;
    }
    match take_best(rivals, tree, tip) {
        Some(best) => best.place.0,
        None => at,
    }
}

/// The block at a place as a rival.
fn rival_at(tree: &BlockTree, at: usize) -> Rival
    requires range { at < length tree.now.history }
    ensures own { IsRivalOf tree.now.history result }
    ensures place { result.place.0 ≡ at }
{
    Rival {
        num: tree.slip(at).num,
        place: Reverse(at),
    }
}

/// Adds a rival.
fn keep(rivals: &mut BinaryHeap<Rival>, rival: Rival)
    requires room { heap_len rivals.old < heap_capacity rivals.old }
    requires order { IsHeap rival_cmp (heap_items rivals.old) }
    ensures items { IsPermutation (rival ∷ heap_items rivals.old) (heap_items rivals.new) }
    ensures order { IsHeap rival_cmp (heap_items rivals.new) }
    ensures len { heap_len rivals.new ≡ heap_len rivals.old + 1 }
    ensures capacity { heap_capacity rivals.old ≤ heap_capacity rivals.new }
{
    // It takes no memory: there is room.
    let _ = rivals.push(rival);
}

/// Takes the best of the rivals whose path has the final tip. Those before it are dropped: their
/// paths do not have it, nor any later tip.
fn take_best(rivals: &mut BinaryHeap<Rival>, tree: &BlockTree, tip: usize) -> Option<Rival>
    requires order { IsHeap rival_cmp (heap_items rivals.old) }
    requires own { All (IsRivalOf tree.now.history) (heap_items rivals.old) }
    requires range { tip < length tree.now.history }
    requires tip { slip_at tree.now.history tip ≡ final_tip tree.now.history }
    ensures order { IsHeap rival_cmp (heap_items rivals.new) }
    ensures own { All (IsRivalOf tree.now.history) (heap_items rivals.new) }
    ensures len { heap_len rivals.new ≤ heap_len rivals.old }
    ensures capacity { heap_capacity rivals.new ≡ heap_capacity rivals.old }
    ensures taken { IfSome result (λ r. IsRivalOf tree.now.history r) }
    ensures holds { IfSome result (λ r. HoldsTipAt tree.now.history r.place.0) }
    ensures best { IfSome result (λ r. IsUpperBound rival_cmp r (heap_items rivals.new)) }
    ensures none { IfNone result (heap_items rivals.new ≡ []) }
    ensures others { (r : RivalOf) → Contains (heap_items rivals.old) r
        → HoldsTipAt tree.now.history r.place.0
        → (result ≡ Some r) ⊎ Contains (heap_items rivals.new) r }
{
    while let Some(rival) = rivals.pop() {
        if tree.on_path(tip, rival.place.0, &mut Uncounted) {
            return Some(rival);
        }
    }
    None
}

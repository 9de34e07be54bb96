//! The steps of a batch, each found by its index.

ghost use Rattle.std.specs.Prelude.{◌≡◌, ◌<◌, ◌^◌, ℕ, ◌≤◌, ◌+◌, ◌++◌, ◌-◌, List, length, reverse, drop, map, take, OnErr, OnOk, IfOk, IfSome, Some, Option, option_and_then};
ghost use Rattle.std.specs.List.{slice_get, AllByRecursion};
ghost use Rattle.std.specs.Option.{option_map, option_or};
ghost use Rattle.block_record.specs.declared.blocks.Slip.{Slip as SlipOf};
ghost use Rattle.chain_model.specs.declared.places.Mode.{Mode as ModeOf};
ghost use Rattle.chain_model.specs.Ancestry.{IsHistory};
ghost use Rattle.chain_model.specs.Finality.{ancestry_of};
ghost use Rattle.chain_model.specs.Steps.{parent_of, ref_of, steps_of};
ghost use Rattle.chain_model.specs.Places.{place_along, place_to, steps_to};
ghost use Rattle.block_tree.specs.Places.{slip_at, slip_of};
ghost use Rattle.fork_db.specs.Batches.{HasOwnBlock, HoldsWhatIs, IsGiven, WasGiven, added_kind, item_seen, step_seen, step_total};

use crate::batches::{Batch, step_count};
use crate::db::ForkDb;
use block_record::{Block, BlockRef, Slip, copy_slip};
use block_tree::BlockTree;
use chain_model::{Place, Step};
use link_rows::Uncounted;
use std::alloc::AllocError;
use std::sync::Arc;

/// A step of a batch, with its block by the block's place in the history.
#[derive(Clone, Copy)]
pub struct StepAt {
    pub step: Step,
    pub at: usize,
}

/// A step of a batch, with its block and the place after it.
#[derive(Drop)]
pub struct StepItem {
    pub step: Step,
    pub slip: Slip,
    /// The block with its payload, where it is still held.
    pub held: Option<Arc<Block>>,
    pub place: Place,
}

impl ForkDb {
    /// How many steps a batch has.
    pub fn step_count(&self, batch: &Batch) -> u64
        requires { WasGiven self.now.history batch.now }
        ensures { (older : List SlipOf) (mode : ModeOf) (stop : Option ℕ)
            → IsGiven self.now.history older mode stop batch.now
            → result ≡ length (steps_of older batch.now.place mode stop) }
    {
        count_in(&self.tree, batch)
    }

    /// The step at an index of a batch, with its block's place. None past the last step. The history
    /// may have grown since the batch was given. It takes no memory.
    pub fn step_at(&self, batch: &Batch, index: u64) -> Option<StepAt>
        requires { WasGiven self.now.history batch.now }
        ensures value { (older : List SlipOf) (mode : ModeOf) (stop : Option ℕ)
            → IsGiven self.now.history older mode stop batch.now
            → option_and_then (step_seen self.now.history) result
            ≡ slice_get (steps_of older batch.now.place mode stop) index }
        ensures range { IfSome result (λ x. x.at < length self.now.history) }
    {
        if index < count_in(&self.tree, batch) {
            return Some(step_in(&self.tree, batch, index));
        }
        None
    }

    /// The place after the first `count` steps of a batch, and after all of them where there are
    /// fewer.
    pub fn place_after(&self, batch: &Batch, count: u64) -> Result<Place, AllocError>
        requires { WasGiven self.now.history batch.now }
        ensures { (older : List SlipOf) (mode : ModeOf) (stop : Option ℕ)
            → IsGiven self.now.history older mode stop batch.now
            → IfOk result (λ p. p ≡ place_along batch.now.place
            (take count (steps_of older batch.now.place mode stop))) }
    {
        let taken = count.min(count_in(&self.tree, batch));
        let end = or_copy(new_end(&self.tree, batch, taken)?, &batch.place.end)?;
        let lib = or_copy(new_lib(&self.tree, batch, taken)?, &batch.place.lib)?;
        Ok(Place { end, lib })
    }

    /// The place after all steps of a batch, which is used up: what stays of its place is moved.
    pub fn place_after_all(&self, batch: Batch) -> Result<Place, AllocError>
        requires { WasGiven self.now.history batch }
        ensures { (older : List SlipOf) (mode : ModeOf) (stop : Option ℕ)
            → IsGiven self.now.history older mode stop batch
            → IfOk result (λ p. p ≡ place_to older batch.place mode stop) }
    {
        let total = count_in(&self.tree, &batch);
        let end = new_end(&self.tree, &batch, total)?;
        let lib = new_lib(&self.tree, &batch, total)?;
        Ok(Place {
            end: end.or(batch.place.end),
            lib: lib.or(batch.place.lib),
        })
    }

    /// Appends the steps of a batch from an index, at most `max`, each with its slip, its block where
    /// it is still held, and the place after it: none where the index is at or past their end. The
    /// history may have grown since the batch was given. At an error `out` is as it was.
    pub fn chunk(
        &self,
        batch: &Batch,
        from: u64,
        max: u32,
        out: &mut Vec<StepItem>,
    ) -> Result<(), AllocError>
        requires { WasGiven self.now.history batch.now }
        ensures ok { (older : List SlipOf) (mode : ModeOf) (stop : Option ℕ)
            → IsGiven self.now.history older mode stop batch.now
            → OnOk result (map item_seen out.new.items ≡ map item_seen out.old.items
            ++ take max (drop from (steps_to older batch.now.place mode stop))) }
        ensures holds { OnOk result (AllByRecursion (HoldsWhatIs self.now.history self.now.held)
            (drop (length out.old.items) out.new.items)) }
        ensures own { OnOk result (AllByRecursion HasOwnBlock
            (drop (length out.old.items) out.new.items)) }
        ensures err { OnErr result (out.new.items ≡ out.old.items) }
    {
        let kept = out.len();
        let end = count_in(&self.tree, batch).min(from.saturating_add(u64::from(max)));
        let pushed = self.push_range(batch, from, end, out);
        if pushed.is_err() {
            out.truncate(kept);
        }
        pushed
    }

    /// The step at an index that is below the number of the steps, with its block and its place.
    fn item_at(&self, batch: &Batch, index: u64) -> Result<StepItem, AllocError>
        requires given { WasGiven self.now.history batch.now }
        requires range { index < step_total batch.now }
        requires small { index + 1 < 2 ^ 64 }
        ensures step { (older : List SlipOf) (mode : ModeOf) (stop : Option ℕ)
            → IsGiven self.now.history older mode stop batch.now
            → IfOk result (λ x. slice_get (steps_to older batch.now.place mode stop) index
            ≡ Some (item_seen x)) }
        ensures holds { IfOk result (HoldsWhatIs self.now.history self.now.held) }
        ensures own { IfOk result HasOwnBlock }
    {
        let found = step_in(&self.tree, batch, index);
        let slip = copy_slip(self.tree.slip(found.at))?;
        let place = self.place_after(batch, index + 1)?;
        let shared = self.held.share(found.at)?;
        Ok(StepItem {
            step: found.step,
            slip,
            held: shared,
            place,
        })
    }

    /// Appends the steps from one index up to another.
    fn push_range(
        &self,
        batch: &Batch,
        from: u64,
        end: u64,
        out: &mut Vec<StepItem>,
    ) -> Result<(), AllocError>
        requires given { WasGiven self.now.history batch.now }
        requires range { end ≤ step_total batch.now }
        ensures ok { (older : List SlipOf) (mode : ModeOf) (stop : Option ℕ)
            → IsGiven self.now.history older mode stop batch.now
            → OnOk result (map item_seen out.new.items ≡ map item_seen out.old.items
            ++ take (end - from) (drop from (steps_to older batch.now.place mode stop))) }
        ensures holds { AllByRecursion (HoldsWhatIs self.now.history self.now.held)
            (drop (length out.old.items) out.new.items) }
        ensures own { AllByRecursion HasOwnBlock (drop (length out.old.items) out.new.items) }
        ensures kept { take (length out.old.items) out.new.items ≡ out.old.items }
    {
        for index in from..end {
            let item = self.item_at(batch, index)?;
            out.push(item)?;
        }
        Ok(())
    }
}

/// The block at a depth of the path of a block.
fn block_at(tree: &BlockTree, last: Option<usize>, depth: u64) -> usize
    requires { depth < length (ancestry_of tree.now.history (slip_of tree.now.history last)) }
    ensures value { slip_at tree.now.history result ≡ slice_get
        (reverse (ancestry_of tree.now.history (slip_of tree.now.history last))) depth }
    ensures range { result < length tree.now.history }
{
    let at = last.unwrap();
    tree.up(at, depth, &mut Uncounted).unwrap()
}

/// The step at an index that is below the number of the steps.
fn step_in(tree: &BlockTree, batch: &Batch, index: u64) -> StepAt
    requires given { WasGiven tree.now.history batch.now }
    requires range { index < step_total batch.now }
    ensures value { (older : List SlipOf) (mode : ModeOf) (stop : Option ℕ)
        → IsGiven tree.now.history older mode stop batch.now
        → step_seen tree.now.history result
        ≡ slice_get (steps_of older batch.now.place mode stop) index }
    ensures range { result.at < length tree.now.history }
{
    let len = tree.len() as u64;
    prove!(batch.held <= len);
    if index < batch.undos {
        return StepAt {
            step: Step::Undo,
            at: block_at(tree, batch.end, batch.held - 1 - index),
        };
    }
    let index = index - batch.undos;
    if index < batch.finals {
        return StepAt {
            step: Step::Final,
            at: block_at(tree, batch.target, batch.known + index),
        };
    }
    let index = index - batch.finals;
    StepAt {
        step: added_step(index < batch.newfinals),
        at: block_at(tree, batch.target, batch.held - batch.undos + index),
    }
}

/// What a step does that adds a block.
fn added_step(is_final: bool) -> Step
    ensures { result ≡ added_kind is_final }
{
    if is_final { Step::NewFinal } else { Step::New }
}

/// How many steps a batch of the tree has: a history is short, so their number fits.
fn count_in(tree: &BlockTree, batch: &Batch) -> u64
    requires given { WasGiven tree.now.history batch.now }
    ensures total { result ≡ step_total batch.now }
    ensures sound { IsHistory tree.now.history }
{
    let len = tree.len() as u64;
    prove!(batch.seen <= len);
    step_count(batch)
}

/// The block of the step at an index that is below the number of the steps.
fn step_slip<'a>(tree: &'a BlockTree, batch: &Batch, index: u64) -> &'a Slip
    requires given { WasGiven tree.now.history batch.now }
    requires range { index < step_total batch.now }
    ensures { (older : List SlipOf) (mode : ModeOf) (stop : Option ℕ)
        → IsGiven tree.now.history older mode stop batch.now
        → option_map (λ x. x.slip) (slice_get (steps_of older batch.now.place mode stop) index)
        ≡ Some result.now }
{
    tree.slip(step_in(tree, batch, index).at)
}

/// The last block that the client has after some steps, where it is another: that of the last new
/// one, else the parent of the last one that was taken back.
fn new_end(tree: &BlockTree, batch: &Batch, taken: u64) -> Result<Option<BlockRef>, AllocError>
    requires sound { IsHistory tree.now.history }
    requires given { WasGiven tree.now.history batch.now }
    requires range { taken ≤ step_total batch.now }
    requires small { step_total batch.now < 2 ^ 64 }
    ensures { (older : List SlipOf) (mode : ModeOf) (stop : Option ℕ)
        → IsGiven tree.now.history older mode stop batch.now
        → IfOk result (λ r. option_or r batch.now.place.end ≡ (place_along batch.now.place
        (take taken (steps_of older batch.now.place mode stop))).end) }
{
    let undone = taken.min(batch.undos);
    if taken > batch.undos + batch.finals {
        let last = reference(step_slip(tree, batch, taken - 1))?;
        return Ok(Some(last));
    }
    if undone > 0 {
        let last = parent_reference(step_slip(tree, batch, undone - 1))?;
        return Ok(Some(last));
    }
    Ok(None)
}

/// The last block that the client knows to be final after some steps, where it is another.
fn new_lib(tree: &BlockTree, batch: &Batch, taken: u64) -> Result<Option<BlockRef>, AllocError>
    requires sound { IsHistory tree.now.history }
    requires given { WasGiven tree.now.history batch.now }
    requires range { taken ≤ step_total batch.now }
    requires small { step_total batch.now < 2 ^ 64 }
    ensures { (older : List SlipOf) (mode : ModeOf) (stop : Option ℕ)
        → IsGiven tree.now.history older mode stop batch.now
        → IfOk result (λ r. option_or r batch.now.place.lib ≡ (place_along batch.now.place
        (take taken (steps_of older batch.now.place mode stop))).lib) }
{
    let marked = taken.min(batch.undos + batch.finals + batch.newfinals);
    if marked > batch.undos {
        let last = reference(step_slip(tree, batch, marked - 1))?;
        return Ok(Some(last));
    }
    Ok(None)
}

/// A reference, or a copy of another where there is none.
fn or_copy(
    block: Option<BlockRef>,
    other: &Option<BlockRef>,
) -> Result<Option<BlockRef>, AllocError>
    ensures { IfOk result (λ r. r ≡ option_or block other.now) }
{
    if block.is_some() {
        return Ok(block);
    }
    copy_of(other)
}

/// A block by number and id.
pub fn reference(block: &Slip) -> Result<BlockRef, AllocError>
    ensures { IfOk result (λ r. r ≡ ref_of block.now) }
{
    Ok(BlockRef {
        num: block.num,
        id: block.id.clone()?,
    })
}

/// The parent by number and id, as the block names it.
fn parent_reference(block: &Slip) -> Result<BlockRef, AllocError>
    ensures { IfOk result (λ r. r ≡ parent_of block.now) }
{
    Ok(BlockRef {
        num: block.parent_num,
        id: block.parent_id.clone()?,
    })
}

/// A copy of a reference.
fn copy_of(block: &Option<BlockRef>) -> Result<Option<BlockRef>, AllocError>
    ensures { IfOk result (λ r. r ≡ block.now) }
{
    let block = block.clone()?;
    Ok(block)
}

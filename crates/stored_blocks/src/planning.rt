//! What is to be written next, found without a scan.

ghost use Rattle.std.specs.Prelude.{◌≡◌, ◌+◌, ◌<◌, ◌≤◌, drop, length, map, take, IfOk, IfSome, IfNone, IsTrue, None, Some, nat_le, true, ◌^◌};
ghost use Rattle.std.specs.List.{AllByRecursion, list_any, slice_get};
ghost use Rattle.std.specs.Option.{option_map};
ghost use Rattle.block_record.specs.Slips.{slip as slip_of_block};
ghost use Rattle.block_tree.specs.Places.{slip_at};
ghost use Rattle.bundle_model.specs.Bundles.{base_of as base_in, finals_up, is_size};
ghost use Rattle.bundle_model.specs.Plans.{dead_below as dead_in, first_unstored, last_stored, next_plan, plan_dead};
ghost use Rattle.relay_model.specs.Offers.{tip_num};
ghost use Rattle.stored_blocks.specs.BundlePlans.{IsFresh, IsHeldAt, open_until, plan_seen, whole_plan};
ghost use Rattle.stored_blocks.specs.Stored.{IsIndex, is_given_up, world_in};

use crate::finals::final_at;
use crate::plans::BundlePlan;
use crate::stored::StoredBlocks;
use block_record::Block;
use fork_db::ForkDb;
use std::alloc::{AllocError, Global};
use std::sync::Arc;

impl StoredBlocks {
    /// What is to be written next, with bundles of the size.
    pub fn next_bundle(
        &self,
        alloc: Global,
        db: &ForkDb,
        size: u64,
    ) -> Result<Option<BundlePlan>, AllocError>
        requires index { IsIndex db.now self.now }
        requires size { IsTrue (is_size size) }
        ensures { IfOk result
            (λ r. option_map plan_seen r ≡ next_plan (world_in size db.now)) }
    {
        let whole = self.whole_plan(alloc, db, size)?;
        if whole.is_some() {
            return Ok(whole);
        }
        let late = self.late_plan(alloc, db, size)?;
        Ok(late)
    }

    /// The plan at the bundle of the first final block that is not stored, where that bundle is due
    /// and none of its blocks is stored.
    fn whole_plan(
        &self,
        alloc: Global,
        db: &ForkDb,
        size: u64,
    ) -> Result<Option<BundlePlan>, AllocError>
        requires index { IsIndex db.now self.now }
        requires size { IsTrue (is_size size) }
        ensures { IfOk result (λ r. option_map plan_seen r
            ≡ whole_plan (world_in size db.now) (first_unstored (world_in size db.now))) }
    {
        let _ = db.len();
        let Some(base) = self.fresh_base(db, size) else {
            return Ok(None);
        };
        let below = base + size;
        let Some(finals) = self.open_finals(alloc, db, below)? else {
            return Ok(None);
        };
        let dead = self.dead_below(alloc, db, below)?;
        Ok(Some(BundlePlan {
            size,
            base,
            finals,
            dead,
            below,
        }))
    }

    /// The base of the bundle of the first final block that is not stored, where that bundle is due
    /// and none of its blocks before that one is stored.
    fn fresh_base(&self, db: &ForkDb, size: u64) -> Option<u64>
        requires index { IsIndex db.now self.now }
        requires size { IsTrue (is_size size) }
        ensures some { IfSome result (IsFresh (world_in size db.now) self.now.front) }
        ensures none { IfNone result (whole_plan (world_in size db.now)
            (first_unstored (world_in size db.now)) ≡ None) }
    {
        let _ = db.len();
        let Some(first) = final_at(db, self.front()) else {
            return None;
        };
        let base = base_of(size, db.slip(first).num);
        if !is_due(db, base, size) {
            return None;
        }
        if self.is_begun(db, base) {
            return None;
        }
        Some(base)
    }

    /// Whether one of the stored final blocks from the root on has a number of at least `base`.
    fn is_begun(&self, db: &ForkDb, base: u64) -> bool
        requires index { IsIndex db.now self.now }
        ensures { result ≡ list_any (λ s. nat_le base s.num)
            (take self.now.front (finals_up db.now.history)) }
    {
        if self.front() == 0 {
            return false;
        }
        let _ = db.len();
        match final_at(db, self.front() - 1) {
            Some(at) => base <= db.slip(at).num,
            None => false,
        }
    }

    /// The final blocks from the first one on that is not stored, with numbers under `end`, unless
    /// one of them is stored.
    fn open_finals(
        &self,
        alloc: Global,
        db: &ForkDb,
        end: u64,
    ) -> Result<Option<Vec<Arc<Block>>>, AllocError>
        requires index { IsIndex db.now self.now }
        ensures { IfOk result (λ r. option_map (λ blocks. map (λ b. slip_of_block b.value) blocks.items) r
            ≡ open_until (is_given_up db.now) end
            (drop self.now.front (finals_up db.now.history))) }
    {
        let _ = db.len();
        let mut blocks = Vec::new(alloc);
        for index in self.front()..self.finals() {
            let Some(at) = final_at(db, index) else {
                return Ok(Some(blocks));
            };
            if db.slip(at).num >= end {
                return Ok(Some(blocks));
            }
            let Some(block) = share(db, at)? else {
                return Ok(None);
            };
            blocks.push(block)?;
        }
        Ok(Some(blocks))
    }

    /// The plan of what is left off the final path, below the end of the bundle of the last stored
    /// final block.
    fn late_plan(
        &self,
        alloc: Global,
        db: &ForkDb,
        size: u64,
    ) -> Result<Option<BundlePlan>, AllocError>
        requires index { IsIndex db.now self.now }
        requires size { IsTrue (is_size size) }
        ensures { IfOk result (λ r. option_map plan_seen r
            ≡ plan_dead (world_in size db.now) (last_stored (world_in size db.now))) }
    {
        let Some(last) = self.last() else {
            return Ok(None);
        };
        let base = base_of(size, db.slip(last).num);
        if !is_due(db, base, size) {
            return Ok(None);
        }
        let below = base + size;
        let dead = self.dead_below(alloc, db, below)?;
        if dead.is_empty() {
            return Ok(None);
        }
        Ok(Some(BundlePlan {
            size,
            base,
            finals: Vec::new(alloc),
            dead,
            below,
        }))
    }

    /// The blocks off the final path with numbers under `below` that are not stored, in the order of
    /// the history.
    fn dead_below(
        &self,
        alloc: Global,
        db: &ForkDb,
        below: u64,
    ) -> Result<Vec<Arc<Block>>, AllocError>
        requires index { IsIndex db.now self.now }
        ensures { IfOk result
            (λ blocks. map (λ b. slip_of_block b.value) blocks.items ≡ dead_in (world_in 0 db.now) below) }
    {
        let _ = db.len();
        let mut places = self.off_below(alloc, below)?;
        places.sort_unstable();
        let blocks = share_all(alloc, db, places.as_slice())?;
        Ok(blocks)
    }
}

/// The base of the bundle in which a number lies.
fn base_of(size: u64, num: u64) -> u64
    requires { 0 < size }
    ensures { result ≡ base_in size num }
{
    num - num % size
}

/// Whether base and size are together at most the final tip's number.
fn is_due(db: &ForkDb, base: u64, size: u64) -> bool
    requires { 0 < size }
    ensures due { result ≡ nat_le (base + size) (tip_num db.now.history) }
    ensures fits { result ≡ true → base + size < 2 ^ 64 }
{
    match db.final_tip() {
        Some(tip) => {
            let num = db.slip(tip).num;
            size <= num && base <= num - size
        }
        None => false,
    }
}

/// A further holder of the block at a place, where its payload is held.
fn share(db: &ForkDb, at: usize) -> Result<Option<Arc<Block>>, AllocError>
    requires { at < length db.now.history }
    ensures value { IfOk result
        (λ r. slice_get db.now.held at ≡ Some (option_map (λ b. b.value) r)) }
    ensures own { IfOk result (λ r. IfSome r
        (λ b. slip_at db.now.history at ≡ Some (slip_of_block b.value))) }
{
    match db.held(at) {
        Some(block) => {
            let block = block.clone()?;
            Ok(Some(block))
        }
        None => Ok(None),
    }
}

/// Further holders of the blocks at places, whose payloads are held.
fn share_all(alloc: Global, db: &ForkDb, places: &[usize]) -> Result<Vec<Arc<Block>>, AllocError>
    requires { AllByRecursion (IsHeldAt db.now) places.now }
    ensures { IfOk result (λ blocks. map Some (map (λ b. slip_of_block b.value) blocks.items)
        ≡ map (slip_at db.now.history) places.now) }
{
    let mut blocks = Vec::new(alloc);
    for at in places {
        if let Some(block) = share(db, *at)? {
            blocks.push(block)?;
        }
    }
    Ok(blocks)
}

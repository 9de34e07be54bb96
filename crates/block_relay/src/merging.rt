//! What a merger asks of a relay, and what it tells it.

ghost use Rattle.std.specs.Prelude.{◌≡◌, [], map, true, ℕ, IfOk, IfSome, IsTrue, None, Some};
ghost use Rattle.std.specs.List.{slice_get};
ghost use Rattle.std.specs.Option.{option_map};
ghost use Rattle.block_record.specs.SlipRefs.{slip_seen};
ghost use Rattle.block_record.specs.Slips.{slip as slip_of_block};
ghost use Rattle.bundle_model.specs.Bundles.{is_size};
ghost use Rattle.bundle_model.specs.Plans.{next_plan};
ghost use Rattle.bundle_model.specs.Retained.{retained as retained_in, stored_finals as stored_finals_in};
ghost use Rattle.bundle_model.specs.Shedding.{is_reached as is_reached_in, may_sweep as may_sweep_in, place_in, shed as shed_in, stored_at};
ghost use Rattle.chain_model.specs.Finality.{final_tip};
ghost use Rattle.relay_model.specs.Chronicles.{history_of};
ghost use Rattle.relay_model.specs.Soundness.{IsBlock};
ghost use Rattle.stored_blocks.specs.BundlePlans.{IsHeldAt, plan_seen};
ghost use Rattle.stored_blocks.specs.Stored.{is_gone};
ghost use Rattle.block_relay.specs.Chronicle.{entry_at, resized, shed_entries, stored_entries, world_told};
ghost use Rattle.block_relay.specs.Held.{holds_block};

use crate::marks::Mark;
use crate::relay::Relay;
use block_intake::Judged;
use block_record::{Block, Id, SlipRef};
use fork_db::ForkDb;
use std::alloc::AllocError;
use std::sync::Arc;
use stored_blocks::BundlePlan;

impl Relay {
    /// What is to be written next, where there is something: a bundle that is due, with the blocks off
    /// the final path below its end, or such blocks alone.
    pub fn next_bundle(&self) -> Result<Option<BundlePlan>, AllocError>
        ensures { IfOk result
            (λ r. option_map plan_seen r ≡ next_plan (world_told self.now)) }
    {
        let db = self.intake.history();
        let plan = self.stored.next_bundle(self.alloc, db, self.size)?;
        Ok(plan)
    }

    /// Stores the blocks of a plan: of each that is in the history and is not stored yet, the payload is
    /// given up. It takes no memory.
    pub fn shed(&mut self, plan: &BundlePlan)
        ensures entries { self.new.entries
            ≡ shed_entries self.old.entries (plan_seen plan.now) }
        ensures world { world_told self.new
            ≡ shed_in (world_told self.old) (plan_seen plan.now) }
        ensures conflicts { self.new.conflicts ≡ self.old.conflicts }
    {
        self.store_all(plan.finals.as_slice());
        self.store_all(plan.dead.as_slice());
    }

    /// Stores blocks.
    fn store_all(&mut self, blocks: &[Arc<Block>])
        ensures entries { self.new.entries ≡ stored_entries (history_of self.old.entries)
            self.old.entries (map (λ b. slip_of_block b.value) blocks.now) }
        ensures conflicts { self.new.conflicts ≡ self.old.conflicts }
    {
        for block in blocks {
            self.store_held(SlipRef::of_block(block));
        }
    }

    /// Counts a block as stored, where it is in the history and is not yet: its payload is given up. It
    /// takes no memory.
    pub fn store(&mut self, slip: SlipRef)
        ensures entries { self.new.entries ≡ entry_at self.old.entries
            (place_in (history_of self.old.entries) (slip_seen slip.entry)) }
        ensures world { world_told self.new ≡ record (world_told self.old) {
          stored = stored_at (world_told self.old).stored
              (place_in (world_told self.old).history (slip_seen slip.entry));
        } }
        ensures conflicts { self.new.conflicts ≡ self.old.conflicts }
    {
        self.store_held(slip);
    }

    /// Gives the payload of a block up, where it is in the history and its payload is held.
    fn store_held(&mut self, slip: SlipRef)
        ensures entries { self.new.entries ≡ entry_at self.old.entries
            (place_in (history_of self.old.entries) (slip_seen slip.entry)) }
        ensures conflicts { self.new.conflicts ≡ self.old.conflicts }
    {
        let Some(at) = place_held(self.intake.history(), slip) else {
            return;
        };
        self.intake.release(at);
        self.stored.store(self.intake.history(), at);
        self.marks.push_reserved(Mark::Stored(at));
    }

    /// Whether the file of a block by number and id may be removed: the block is stored, or it is held
    /// nowhere and its number is at most the final tip's.
    pub fn may_sweep(&self, num: u64, id: &Id) -> bool
        ensures { result ≡ may_sweep_in (world_told self.now) num id.now }
    {
        let db = self.intake.history();
        let _ = db.len();
        match db.find(id) {
            Some(at) => db.held(at).is_none(),
            None => !self.intake.waits(id) && is_reached(db, num),
        }
    }

    /// Whether the relay holds a block: it is in the history, or waits.
    pub fn holds(&self, slip: SlipRef) -> bool
        requires { IsBlock (slip_seen slip) }
        ensures { result ≡ holds_block (world_told self.now) (slip_seen slip.entry) }
    {
        match self.intake.judge(slip) {
            Judged::Duplicate => true,
            Judged::Conflict(_, _)
            | Judged::Early
            | Judged::Stale
            | Judged::WaitFull
            | Judged::Waiting
            | Judged::Links { .. } => false,
        }
    }

    /// How many blocks have their payloads here: those that are not stored.
    pub fn retained(&self) -> u64
        ensures { result ≡ retained_in (world_told self.now) }
    {
        self.intake.len() - self.stored.stored()
    }

    /// How many final blocks are stored.
    pub fn stored_finals(&self) -> u64
        ensures { result ≡ stored_finals_in (world_told self.now) }
    {
        self.stored.stored_finals()
    }

    /// Sets how many numbers a bundle covers, while nothing is stored.
    pub fn set_size(&mut self, size: u64)
        requires size { IsTrue (is_size size) }
        requires empty { (world_told self.old).stored ≡ [] }
        ensures entries { self.new.entries ≡ resized size self.old.entries }
        ensures world { world_told self.new ≡ record (world_told self.old) { size = size } }
        ensures conflicts { self.new.conflicts ≡ self.old.conflicts }
    {
        self.size = size;
    }
}

/// The place of a block, where it is in the history and its payload is held.
fn place_held(db: &ForkDb, slip: SlipRef) -> Option<usize>
    ensures some { IfSome result
        (λ at. place_in db.now.history (slip_seen slip.entry) ≡ Some at) }
    ensures held { IfSome result (IsHeldAt db.now) }
    ensures none { (at : ℕ) → result ≡ None
        → place_in db.now.history (slip_seen slip.entry) ≡ Some at
        → is_gone (slice_get db.now.held at) ≡ true }
{
    // The history is one.
    let _ = db.len();
    let Some(at) = db.find(slip.id) else {
        return None;
    };
    if !slip.is_same(db.slip(at)) {
        return None;
    }
    if db.held(at).is_some() {
        return Some(at);
    }
    None
}

/// Whether a number is at most the final tip's, where there is one.
fn is_reached(db: &ForkDb, num: u64) -> bool
    ensures { result ≡ is_reached_in (final_tip db.now.history) num }
{
    match db.final_tip() {
        Some(tip) => num <= db.slip(tip).num,
        None => false,
    }
}

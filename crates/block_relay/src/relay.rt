//! The relay.

ghost use Rattle.std.specs.Prelude.{◌++◌, drop, map, take, Option, ◌≡◌, ◌≢◌, ◌<◌, ◌≤◌, ◌+◌, ◌∷◌, [], length, reverse, vec_len, vec_capacity, ℕ, List, Err, None, false, true, IsSome, IsTrue, IfOk, OnErr, OnOk, Some};
ghost use Rattle.std.specs.Result.{IsOk};
ghost use Rattle.std.specs.List.{AllByRecursion};
ghost use Rattle.std.specs.Option.{option_copied, option_map};
ghost use Rattle.block_record.specs.Slips.{slip as slip_of_block};
ghost use Rattle.block_tree.specs.Places.{slip_at};
ghost use Rattle.block_record.specs.declared.blocks.Slip.{Slip as SlipOf};
ghost use Rattle.bundle_model.specs.Bundles.{is_size};
ghost use Rattle.chain_model.specs.declared.places.Mode.{Mode as ModeOf};
ghost use Rattle.chain_model.specs.Places.{steps_to};
ghost use Rattle.fork_db.specs.Claims.{IsLinkOf};
ghost use Rattle.fork_db.specs.Batches.{HasOwnBlock, IsGiven, WasGiven, item_seen};
ghost use Rattle.relay_look.specs.Answers.{FitsAt, HasBatchOf, HasFewSteps, IsLook, position_of};
ghost use Rattle.relay_model.specs.Looks.{looked};
ghost use Rattle.relay_model.specs.Chronicles.{Kind as KindEntry, Opened, added};
ghost use Rattle.relay_model.specs.Offers.{conflict, judge as judge_in, judge_limit, offered};
ghost use Rattle.relay_model.specs.Soundness.{IsSound};
ghost use Rattle.relay_model.specs.Verdicts as verdict;
ghost use Rattle.relay_model.specs.Worlds.{usual_size};
ghost use Rattle.block_intake.specs.Answers.{IsAnswer, is_mem};
ghost use Rattle.block_intake.specs.Judged.{IsLinked, verdict_of_judged};
ghost use Rattle.block_relay.specs.Chronicle.{closed_entries, greeted, limits_told, may_greet, world_told};
ghost use Rattle.block_relay.specs.Done.{IsDone};
ghost use Rattle.block_relay.specs.Held.{HasBlock};

use crate::answers::KindFault;
use crate::kinds::{copy_kind, kind_clash, kind_of_root};
use crate::limits::{Limits, intake_limits};
use crate::marks::{Mark, keep_root_kind, mark_admitted};
use crate::memory::{reserve_admission, reserve_marks};
use crate::notes::note_dropped;
use block_intake::{Admission, Conflict, ConflictKind, Intake, Judged, OfferFault, Offered};
use block_record::{Block, Kind, Slip, SlipBuffer, SlipRef, copy_slip, slip_of};
use fork_db::{Batch, ForkDb, Linked, StepItem};
use relay_look::{Look, LookFault, Position, look};
use std::alloc::{AllocError, Global};
use std::marker::Model;
use std::sync::Arc;
use step_cursor::Request;
use stored_blocks::StoredBlocks;

/// How many numbers a bundle covers, where no other size is set.
const USUAL_SIZE: u64 = 100;

/// A history that several nodes feed, and the blocks that wait for their parents, with all payloads.
/// Contracts see the entries of its chronicle and the conflicts, what came last first.
#[derive(Drop)]
pub struct Relay {
    run: u64,
    limits: Limits,
    pub(crate) size: u64,
    kind: Option<Kind>,
    pub(crate) intake: Intake,
    /// Which blocks are stored: those whose payloads the intake's history gave up.
    pub(crate) stored: StoredBlocks,
    /// The slips of the blocks that were answered `Waiting`.
    waited: Vec<Slip>,
    /// What was taken. There is room for one more for each block that is not stored, and for the
    /// last one, which closes the relay.
    pub(crate) marks: Vec<Mark>,
    conflicts: Vec<Conflict>,
    /// Memory to note the conflicts of blocks that an admission drops.
    buffers: Vec<SlipBuffer>,
    closed: bool,
    pub(crate) alloc: Global,
}

impl Model for Relay {
    ghost use Rattle.std.specs.Prelude.{◌≡◌, reverse, vec_len, vec_capacity, false, None, IsTrue};
    ghost use Rattle.bundle_model.specs.Bundles.{is_size};
    ghost use Rattle.stored_blocks.specs.Stored.{IsIndex};
    ghost use Rattle.wait_room.specs.Rooms.{AreKept};
    ghost use Rattle.block_relay.specs.Chronicle.{IsKept, Told, has_kind_mark, limits_told, told_with, world_told};
    ghost use Rattle.block_relay.specs.Held.{AreGone, HasMarksLeft};

    ghost Value = { Told };

    ghost view = { λ t. told_with t.intake t.run (limits_told t.limits) t.size t.kind
        t.marks.items t.waited.items t.conflicts.items };

    ghost invariant = { λ t. IsKept (world_told (told_with t.intake t.run (limits_told t.limits)
        t.size t.kind t.marks.items t.waited.items t.conflicts.items))
        t.intake t.kind t.closed t.run t.size
        × HasMarksLeft t.closed t.intake t.stored (vec_len t.marks) (vec_capacity t.marks)
        × (t.kind ≡ None → has_kind_mark (reverse t.marks.items) ≡ false)
        × AreKept t.intake.room
        × IsIndex t.intake.forks t.stored
        × AreGone (world_told (told_with t.intake t.run (limits_told t.limits)
        t.size t.kind t.marks.items t.waited.items t.conflicts.items)).stored t.intake.forks.held
        × IsTrue (is_size t.size) };
}

impl Relay {
    /// No block, for blocks with numbers of at least `first`, in the run of this number.
    pub fn new(alloc: Global, first: u64, run: u64, limits: Limits) -> Result<Relay, AllocError>
        ensures entries { IfOk result
            (λ r. r.entries ≡ Opened first run (limits_told limits) usual_size ∷ []) }
        ensures conflicts { IfOk result (λ r. r.conflicts ≡ []) }
    {
        let marks = Vec::with_capacity(alloc, 1)?;
        let intake = Intake::new(alloc, first, intake_limits(limits))?;
        Ok(Relay {
            run,
            limits,
            size: USUAL_SIZE,
            kind: None,
            intake,
            stored: StoredBlocks::new(alloc),
            waited: Vec::new(alloc),
            marks,
            conflicts: Vec::new(alloc),
            buffers: Vec::new(alloc),
            closed: false,
            alloc,
        })
    }

    /// The kept kind of the nodes. Where there is a block, there is one.
    pub fn kind(&self) -> Option<&Kind>
        ensures kind { option_copied result ≡ (world_told self.now).kind }
        ensures some { (world_told self.now).history ≢ [] → IsSome result }
    {
        self.kind.as_ref()
    }

    /// How many numbers a bundle covers: 100 or 1,000.
    pub fn size(&self) -> u64
        ensures size { result ≡ (world_told self.now).size }
        ensures sized { IsTrue (is_size result) }
    {
        self.size
    }

    /// Takes notice of what a node says of itself. The first kind is kept, and later ones have to have
    /// its type. At an error nothing has changed.
    pub fn hello(&mut self, kind: &Kind) -> Result<(), KindFault>
        ensures ok { OnOk result
            (IsTrue (may_greet (world_told self.old).kind kind.now)
            × (self.new.entries
            ≡ greeted (world_told self.old).kind kind.now self.old.entries)) }
        // Where there is a kind already, no memory is needed.
        ensures known { (world_told self.old).kind ≢ None
            → may_greet (world_told self.old).kind kind.now ≡ true → IsOk result }
        ensures conflicts { self.new.conflicts ≡ self.old.conflicts }
        ensures err { OnErr result (self.new.entries ≡ self.old.entries) }
        // `KindClash` comes exactly where the types differ, but for want of memory.
        ensures clash { (held offered : List ℕ)
            → result ≡ Err (KindFault.KindClash held offered)
            → (may_greet (world_told self.old).kind kind.now ≡ false)
            × (option_map (λ k. k.block_type) (world_told self.old).kind ≡ Some held)
            × (kind.now.block_type ≡ offered) }
    {
        match &self.kind {
            Some(held) if held.block_type == kind.block_type => Ok(()),
            Some(held) => Err(kind_clash(held, kind)),
            None => {
                self.keep_kind(kind)?;
                Ok(())
            }
        }
    }

    /// Keeps the first kind. At an error nothing has changed.
    fn keep_kind(&mut self, kind: &Kind) -> Result<(), AllocError>
        requires { (world_told self.old).kind ≡ None }
        ensures ok { OnOk result
            (self.new.entries ≡ KindEntry kind.now ∷ self.old.entries) }
        ensures conflicts { self.new.conflicts ≡ self.old.conflicts }
        ensures err { OnErr result (self.new.entries ≡ self.old.entries) }
    {
        let kept = copy_kind(kind)?;
        reserve_marks(&mut self.marks, self.intake.len() - self.stored.stored(), 0)?;
        self.marks.push_reserved(Mark::Kind);
        self.kind = Some(kept);
        Ok(())
    }

    /// Whether the relay is closed.
    pub fn closed(&self) -> bool
        ensures { result ≡ (world_told self.now).closed }
    {
        self.closed
    }

    /// How many blocks the history has. The world of a relay is sound.
    pub fn len(&self) -> u64
        ensures len { result ≡ length (world_told self.now).history }
        ensures limit { result ≤ (world_told self.now).limits.history }
        ensures sound { IsSound (world_told self.now) }
    {
        self.intake.len()
    }

    /// How many blocks wait.
    pub fn waiting(&self) -> u64
        ensures { result ≡ length (world_told self.now).waiting }
    {
        self.intake.waiting()
    }

    /// All conflicts that were noted, in order.
    pub fn conflicts(&self) -> &[Conflict]
        ensures { reverse result.now ≡ self.now.conflicts }
    {
        self.conflicts.as_slice()
    }

    /// The history, to be asked for its steps.
    pub fn history(&self) -> &ForkDb
        ensures { result.now.history ≡ (world_told self.now).history }
    {
        self.intake.history()
    }

    /// The slip at a place of the history.
    pub fn slip(&self, at: usize) -> &Slip
        requires { at < length (world_told self.now).history }
        ensures { slip_at (world_told self.now).history at ≡ Some result.now }
    {
        self.intake.slip(at)
    }

    /// What a client gets next that stands at the position. A place where it stands is one that an
    /// earlier batch of this relay reached, so that it fits the history.
    pub fn look(&self, request: &Request, position: &Position) -> Result<Look, LookFault>
        requires { FitsAt (world_told self.now).history position.now }
        ensures said { IsLook
            (looked (world_told self.now) request.now (position_of position.now)) result }
        ensures given { HasBatchOf (world_told self.now).history request.now result }
        ensures few { HasFewSteps result }
    {
        look(
            self.intake.history(),
            self.run,
            self.closed,
            request,
            position,
        )
    }

    /// Appends the steps of a batch from an index, at most `max`, each with its slip, its block where
    /// it is still held, and the place after it: none where the index is at or past their end. The
    /// history may have grown since the batch was given. Each block that is not stored is held, and is
    /// that of its step.
    /// At an error `out` is as it was.
    pub fn chunk(
        &self,
        batch: &Batch,
        from: u64,
        max: u32,
        out: &mut Vec<StepItem>,
    ) -> Result<(), AllocError>
        requires { WasGiven (world_told self.now).history batch.now }
        ensures ok { (older : List SlipOf) (mode : ModeOf) (stop : Option ℕ)
            → IsGiven (world_told self.now).history older mode stop batch.now
            → OnOk result (map item_seen out.new.items ≡ map item_seen out.old.items
            ++ take max (drop from (steps_to older batch.now.place mode stop))) }
        ensures held { OnOk result (AllByRecursion (HasBlock (world_told self.now))
            (drop (length out.old.items) out.new.items)) }
        ensures own { OnOk result (AllByRecursion HasOwnBlock
            (drop (length out.old.items) out.new.items)) }
        ensures err { OnErr result (out.new.items ≡ out.old.items) }
    {
        self.intake.history().chunk(batch, from, max, out)
    }

    /// Offers a block. What it is answered, and what stands then, is what the rules say; at `Mem`
    /// nothing has changed. It takes memory only to note a conflict, to let a block wait, and to admit.
    pub fn offer(&mut self, block: Arc<Block>) -> Result<Offered, OfferFault>
        // What the rules say.
        ensures said { IsAnswer
            (offered (world_told self.old) (slip_of_block block.value)).answer result }
        ensures entries { is_mem result ≡ false → self.new.entries
            ≡ added (world_told self.old) (slip_of_block block.value) ++ self.old.entries }
        ensures world { is_mem result ≡ false → world_told self.new
            ≡ (offered (world_told self.old) (slip_of_block block.value)).world }
        // Without memory nothing has changed.
        ensures mem { is_mem result ≡ true → self.new ≡ self.old }
    {
        self.take(block)
    }

    /// Closes the relay. A second time changes nothing. It takes no memory.
    pub fn close(&mut self)
        ensures entries { self.new.entries
            ≡ closed_entries (world_told self.old).closed self.old.entries }
        ensures conflicts { self.new.conflicts ≡ self.old.conflicts }
    {
        if !self.closed {
            self.marks.push_reserved(Mark::Closed);
            self.closed = true;
        }
    }

    /// Takes an offered block.
    fn take(&mut self, block: Arc<Block>) -> Result<Offered, OfferFault>
        ensures { IsDone (judge_in (world_told self.old) (slip_of_block block.value))
            (slip_of_block block.value) self.old self.new result }
    {
        if self.closed() {
            let len = self.intake.len();
            return Err(OfferFault::Closed { len });
        }
        match self.judge(&block) {
            Judged::Duplicate => Ok(Offered::Duplicate),
            Judged::Conflict(kind, held) => {
                let held = copy_slip(held)?;
                let offered = slip_of(self.alloc, &block)?;
                self.refuse(kind, held, offered)
            }
            Judged::Early => Ok(Offered::Early),
            Judged::Stale => Ok(Offered::Stale),
            Judged::WaitFull => Err(self.intake.wait_full()),
            Judged::Waiting => self.let_wait(block),
            Judged::Links { linked } => self.admit(block, linked),
        }
    }

    /// Which rule decides an offer to a relay that is open. It takes no memory.
    fn judge(&self, block: &Block) -> Judged<'_>
        requires { (world_told self.now).closed ≡ false }
        ensures rule { verdict_of_judged (world_told self.now) (slip_of_block block.now) result
            ≡ judge_in (world_told self.now) (slip_of_block block.now) }
        ensures linked { IsLinked (world_told self.now).history (slip_of_block block.now) result }
    {
        self.intake.judge(SlipRef::of_block(block))
    }

    /// Notes a conflict and tells it.
    fn refuse(
        &mut self,
        kind: ConflictKind,
        held: Slip,
        offered: Slip,
    ) -> Result<Offered, OfferFault>
        ensures { IsDone (verdict.Conflict (conflict kind held offered)) offered
            self.old self.new result }
    {
        let told = Conflict {
            kind,
            held: copy_slip(&held)?,
            offered: copy_slip(&offered)?,
        };
        self.note(kind, held, offered)?;
        Err(OfferFault::Conflict(told))
    }

    /// Notes a conflict. At an error nothing has changed.
    fn note(&mut self, kind: ConflictKind, held: Slip, offered: Slip) -> Result<(), AllocError>
        ensures entries { self.new.entries ≡ self.old.entries }
        ensures conflicts { OnOk result
            (self.new.conflicts ≡ conflict kind held offered ∷ self.old.conflicts) }
        ensures err { OnErr result (self.new.conflicts ≡ self.old.conflicts) }
    {
        self.conflicts.push(Conflict {
            kind,
            held,
            offered,
        })?;
        Ok(())
    }

    /// Lets a block wait.
    fn let_wait(&mut self, block: Arc<Block>) -> Result<Offered, OfferFault>
        requires open { (world_told self.old).closed ≡ false }
        requires waits { judge_in (world_told self.old) (slip_of_block block.value)
            ≡ verdict.Waiting }
        ensures { IsDone verdict.Waiting (slip_of_block block.value) self.old self.new result }
    {
        let slip = slip_of(self.alloc, &block)?;
        let kept = copy_slip(&slip)?;
        self.waited.reserve(1)?;
        reserve_marks(&mut self.marks, self.intake.len() - self.stored.stored(), 0)?;
        self.intake.let_wait(slip, Some(block))?;
        self.waited.push_reserved(kept);
        self.marks.push_reserved(Mark::Waited);
        Ok(Offered::Waiting)
    }

    /// Admits a block that links, with the waiting blocks that follow it, where the limit has room.
    fn admit(&mut self, block: Arc<Block>, linked: Linked) -> Result<Offered, OfferFault>
        requires open { (world_told self.old).closed ≡ false }
        requires linked { IsLinkOf (world_told self.old).history (slip_of_block block.value)
            linked }
        requires links { judge_in (world_told self.old) (slip_of_block block.value)
            ≡ judge_limit (world_told self.old) (slip_of_block block.value) }
        ensures { IsDone (judge_in (world_told self.old) (slip_of_block block.value))
            (slip_of_block block.value) self.old self.new result }
    {
        let slip = slip_of(self.alloc, &block)?;
        let root_kind = kind_of_root(self.alloc, self.intake.len(), &self.kind)?;
        reserve_admission(
            self.alloc,
            &slip.id,
            &mut self.intake,
            &mut self.stored,
            &mut self.marks,
            &mut self.conflicts,
            &mut self.buffers,
        )?;
        let Admission {
            from,
            count,
            dropped,
        } = self.intake.admit(slip, Some(block), linked);
        self.stored.grow(self.intake.history());
        keep_root_kind(&mut self.kind, &mut self.marks, root_kind);
        mark_admitted(&mut self.marks, count);
        note_dropped(&mut self.conflicts, &mut self.buffers, &dropped);
        Ok(Offered::Admitted {
            from,
            count,
            dropped,
        })
    }
}

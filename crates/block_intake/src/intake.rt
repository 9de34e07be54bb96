//! The intake.

ghost use Rattle.std.specs.Prelude.{◌≡◌, ◌<◌, ◌≤◌, ◌+◌, [], Err, IfErr, IfOk, IfSome, IsErr, OnErr, OnOk, length, true, false, ℕ};
ghost use Rattle.std.specs.Option.{is_some};
ghost use Rattle.block_record.specs.declared.blocks.Slip.{Slip as SlipOf};
ghost use Rattle.block_record.specs.SlipRefs.{slip_seen};
ghost use Rattle.block_record.specs.Slips.{slip as slip_of_block};
ghost use Rattle.block_tree.specs.Places.{slip_at};
ghost use Rattle.fork_db.specs.Claims.{IsLinkOf};
ghost use Rattle.relay_model.specs.Offers.{Admitted, answer_by, judge as judge_in, judge_limit, offered, world_by};
ghost use Rattle.relay_model.specs.Verdicts as verdict;
ghost use Rattle.relay_model.specs.Runs.{empty_world};
ghost use Rattle.relay_model.specs.Soundness.{IsBlock, IsSound};
ghost use Rattle.relay_model.specs.Worlds.{descendants, room_bytes};
ghost use Rattle.block_intake.specs.Answers.{IsAnswer, is_mem};
ghost use Rattle.block_intake.specs.Intakes.{HasRoomFor, IsOffered, IsUnchanged, limits_in, released, unnoted, world_taken};
ghost use Rattle.block_intake.specs.Judged.{IsLinked, verdict_of_judged};
ghost use Rattle.block_intake.specs.Taking.{IsRoomFault, StaysHeld};
ghost use Rattle.chain_model.specs.Ancestry.{has_id};
ghost use Rattle.wait_room.specs.Rooms.{AreKept};

use crate::answers::{OfferFault, Offered};
use crate::drops::Drops;
use crate::judged::{Judged, judge_offer};
use crate::limits::IntakeLimits;
use crate::taking::{admit_with_followers, make_room};
use block_record::{Block, Id, Slip, SlipRef, copy_slip};
use fork_db::{ForkDb, Linked};
use relay_model::Conflict;
use std::alloc::{AllocError, Global};
use std::marker::Model;
use std::sync::Arc;
use wait_room::WaitRoom;

/// What takes blocks in: a history, and the blocks that wait for their parents. Contracts see both
/// with their limits and with what is kept of each block, the least number that is taken, and for how
/// many dropped blocks there is memory.
#[derive(Drop)]
pub struct Intake {
    first: u64,
    db: ForkDb,
    room: WaitRoom,
    /// Nothing but memory, outside an admission.
    drops: Drops,
    alloc: Global,
}

impl Model for Intake {
    ghost use Rattle.std.specs.Prelude.{◌≡◌, []};
    ghost use Rattle.relay_model.specs.Soundness.{IsSound};
    ghost use Rattle.block_intake.specs.Intakes.{TakenIn, taken_in, world_taken};

    ghost Value = { TakenIn };

    ghost view = { λ t. taken_in t.first t.db t.room t.drops.spare };

    ghost invariant = { λ t. IsSound (world_taken (taken_in t.first t.db t.room t.drops.spare))
        × (t.drops.conflicts ≡ []) };
}

/// A block and the waiting blocks that followed it.
#[derive(Debug, Drop)]
pub struct Admission {
    /// The place of the block in the history.
    pub from: u64,
    /// How many blocks there are, with it.
    pub count: u64,
    /// The waiting blocks that contradicted the history, in the order of dropping.
    pub dropped: Vec<Conflict>,
}

impl Intake {
    /// No block, for blocks with numbers of at least `first`.
    pub fn new(alloc: Global, first: u64, limits: IntakeLimits) -> Result<Intake, AllocError>
        ensures world { IfOk result (λ t. world_taken t ≡ empty_world first 0 (limits_in limits)) }
        ensures held { IfOk result (λ t. t.forks.held ≡ []) }
        ensures waiting { IfOk result (λ t. AreKept t.room) }
    {
        let db = ForkDb::new(alloc, limits.history)?;
        Ok(Intake {
            first,
            db,
            room: WaitRoom::new(alloc, limits.wait_blocks, limits.wait_bytes),
            drops: Drops::new(alloc),
            alloc,
        })
    }

    /// How many blocks the history has. The world of an intake is sound.
    pub fn len(&self) -> u64
        ensures len { result ≡ length self.now.forks.history }
        ensures limit { result ≤ self.now.forks.limit }
        ensures sound { IsSound (world_taken self.now) }
    {
        self.db.len()
    }

    /// How many blocks wait.
    pub fn waiting(&self) -> u64
        ensures { result ≡ length self.now.room.waiting }
    {
        self.room.blocks()
    }

    /// The history, to be asked for its steps.
    pub fn history(&self) -> &ForkDb
        ensures { result.now ≡ self.now.forks }
    {
        &self.db
    }

    /// The slip at a place of the history.
    pub fn slip(&self, at: usize) -> &Slip
        requires { at < length self.now.forks.history }
        ensures { slip_at self.now.forks.history at ≡ Some result.now }
    {
        self.db.slip(at)
    }

    /// Whether a block with this id waits.
    pub fn waits(&self, id: &Id) -> bool
        ensures { result ≡ has_id self.now.room.waiting id.now }
    {
        self.room.find(id).is_some()
    }

    /// Gives up the payload at a place. The slip stays.
    pub fn release(&mut self, at: usize)
        requires { at < length self.old.forks.history }
        ensures { self.new ≡ released at self.old }
    {
        self.db.release(at);
    }

    /// Which rule decides the offer of a block that is seen where it stands. It takes no memory.
    pub fn judge(&self, slip: SlipRef) -> Judged<'_>
        requires { IsBlock (slip_seen slip) }
        ensures rule { verdict_of_judged (world_taken self.now) (slip_seen slip.entry) result
            ≡ judge_in (world_taken self.now) (slip_seen slip.entry) }
        ensures linked { IsLinked self.now.forks.history (slip_seen slip.entry) result }
    {
        judge_offer(self.first, &self.db, &self.room, slip)
    }

    /// The same of a block by its slip.
    fn judge_slip(&self, slip: &Slip) -> Judged<'_>
        requires { IsBlock slip.now }
        ensures rule { verdict_of_judged (world_taken self.now) slip.now result
            ≡ judge_in (world_taken self.now) slip.now }
        ensures linked { IsLinked self.now.forks.history slip.now result }
    {
        self.judge(SlipRef::of_slip(slip))
    }

    /// That a block would have to wait and passes a limit of the room, as an answer.
    pub fn wait_full(&self) -> OfferFault
        ensures { (s : SlipOf) → IsAnswer
            (answer_by (world_taken self.now) s verdict.WaitFull) (Err result) }
    {
        OfferFault::WaitFull {
            blocks: self.room.blocks(),
            bytes: self.room.bytes(),
        }
    }

    /// Offers a block, which is given where its payload is to be kept. What it is answered, and what
    /// stands then, is what the rules say; at `Mem` nothing has changed.
    pub fn offer(&mut self, slip: Slip, block: Option<Arc<Block>>) -> Result<Offered, OfferFault>
        requires own { IfSome block (λ b. slip ≡ slip_of_block b.value) }
        requires block { IsBlock slip }
        // What the rules say.
        ensures said { IsAnswer (offered (world_taken self.old) slip).answer result }
        ensures world { is_mem result ≡ false → world_taken self.new
            ≡ unnoted (offered (world_taken self.old) slip).world }
        // Without memory nothing has changed.
        ensures mem { is_mem result ≡ true → IsUnchanged self.old self.new }
        // What is kept.
        ensures held { is_some block ≡ true → AreKept self.old.room
            → StaysHeld self.old.forks self.new.forks self.new.room }
    {
        self.take(slip, block)
    }

    /// Takes an offered block.
    fn take(&mut self, slip: Slip, block: Option<Arc<Block>>) -> Result<Offered, OfferFault>
        requires own { IfSome block (λ b. slip ≡ slip_of_block b.value) }
        requires block { IsBlock slip }
        ensures { IsOffered (judge_in (world_taken self.old) slip) slip (is_some block)
            self.old self.new result }
    {
        match self.judge_slip(&slip) {
            Judged::Duplicate => Ok(Offered::Duplicate),
            Judged::Conflict(kind, held) => {
                let held = copy_slip(held)?;
                Err(OfferFault::Conflict(Conflict {
                    kind,
                    held,
                    offered: slip,
                }))
            }
            Judged::Early => Ok(Offered::Early),
            Judged::Stale => Ok(Offered::Stale),
            Judged::WaitFull => Err(self.wait_full()),
            Judged::Waiting => {
                self.let_wait(slip, block)?;
                Ok(Offered::Waiting)
            }
            Judged::Links { linked } => self.take_linked(slip, block, linked),
        }
    }

    /// Lets a block wait. At an error nothing has changed.
    pub fn let_wait(&mut self, slip: Slip, block: Option<Arc<Block>>) -> Result<(), AllocError>
        requires own { IfSome block (λ b. slip ≡ slip_of_block b.value) }
        requires block { IsBlock slip }
        requires waits { judge_in (world_taken self.old) slip ≡ verdict.Waiting }
        ensures ok { OnOk result (world_taken self.new
            ≡ world_by (world_taken self.old) slip verdict.Waiting) }
        ensures forks { self.new.forks ≡ self.old.forks }
        ensures held { is_some block ≡ true → AreKept self.old.room
            → OnOk result (AreKept self.new.room) }
        ensures err { OnErr result (self.new ≡ self.old) }
    {
        self.room.put(slip, block)?;
        Ok(())
    }

    /// Takes a block that links, with the waiting blocks that follow it, where the limit has room.
    fn take_linked(
        &mut self,
        slip: Slip,
        block: Option<Arc<Block>>,
        linked: Linked,
    ) -> Result<Offered, OfferFault>
        requires own { IfSome block (λ b. slip ≡ slip_of_block b.value) }
        requires block { IsBlock slip }
        requires linked { IsLinkOf self.old.forks.history slip linked }
        requires links { judge_in (world_taken self.old) slip
            ≡ judge_limit (world_taken self.old) slip }
        ensures { IsOffered (judge_in (world_taken self.old) slip) slip (is_some block)
            self.old self.new result }
    {
        let _ = self.make_room(&slip.id)?;
        let Admission {
            from,
            count,
            dropped,
        } = self.admit(slip, block, linked);
        Ok(Offered::Admitted {
            from,
            count,
            dropped,
        })
    }

    /// Takes the memory to admit a block with the waiting blocks that descend from it, and says how
    /// many these are at most.
    pub fn make_room(&mut self, id: &Id) -> Result<u64, OfferFault>
        ensures unchanged { IsUnchanged self.old self.new }
        ensures ok { IfOk result (HasRoomFor self.new id.now) }

        // `HistoryFull` comes exactly where so many would pass the limit, but for want of memory.
        ensures full { (len need : ℕ) → result ≡ Err (OfferFault.HistoryFull len need)
            → (len ≡ length self.old.forks.history)
            × (need ≡ 1 + descendants self.old.room.waiting id.now)
            × (self.old.forks.limit < len + need) }
        ensures limited { self.old.forks.limit < length self.old.forks.history
            + (1 + descendants self.old.room.waiting id.now) → IsErr result }
        ensures faults { IfErr result IsRoomFault }
    {
        let follow = make_room(&mut self.db, &self.room, id)?;
        self.drops.reserve(self.alloc, follow as usize)?;
        Ok(follow)
    }

    /// Admits a block that the rules admit, where it is linked, with the waiting blocks that follow it.
    /// It takes no memory.
    pub fn admit(&mut self, slip: Slip, block: Option<Arc<Block>>, linked: Linked) -> Admission
        requires own { IfSome block (λ b. slip ≡ slip_of_block b.value) }
        requires block { IsBlock slip }
        requires takes { judge_in (world_taken self.old) slip ≡ verdict.Admitted }
        requires linked { IsLinkOf self.old.forks.history slip linked }
        requires room { 1 + descendants self.old.room.waiting slip.id ≤ self.old.forks.room }
        requires spare { descendants self.old.room.waiting slip.id ≤ self.old.spare }
        // What the rules say.
        ensures said { answer_by (world_taken self.old) slip verdict.Admitted
            ≡ Admitted result.from result.count result.dropped.items }
        ensures world { world_taken self.new
            ≡ unnoted (world_by (world_taken self.old) slip verdict.Admitted) }
        // How many come and go, and what is kept.
        ensures some { 0 < result.count }
        ensures most { result.count + length result.dropped.items
            ≤ 1 + descendants self.old.room.waiting slip.id }
        ensures held { is_some block ≡ true → AreKept self.old.room
            → StaysHeld self.old.forks self.new.forks self.new.room }
    {
        let from = self.db.len();
        let (db, room) = (&mut self.db, &mut self.room);
        admit_with_followers(db, room, &mut self.drops, slip, block, linked);
        let count = self.db.len() - from;
        Admission {
            from,
            count,
            dropped: self.drops.finish(self.alloc),
        }
    }
}

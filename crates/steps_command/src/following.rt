//! What takes blocks in, and a client that follows the head: each block that is offered is answered,
//! and told.

ghost use Rattle.std.specs.Prelude.{◌≡◌, ◌<◌, ◌++◌, ◌∷◌, [], ℕ, List, Option, None, Err, IfOk, OnOk, map, take, drop, length, false};
ghost use Rattle.block_record.specs.Slips.{slip};
ghost use Rattle.block_record.specs.declared.blocks.Slip.{Slip as SlipOf};
ghost use Rattle.chain_model.specs.declared.places.Mode.{Mode as ModeOf};
ghost use Rattle.chain_model.specs.declared.places.Mode.TheVariants as mode;
ghost use Rattle.chain_model.specs.Places.{PlaceFits, no_place, place_to};
ghost use Rattle.chain_model.specs.Steps.{steps_of, plain_of};
ghost use Rattle.block_intake.specs.Answers.{IsAnswer, is_mem};
ghost use Rattle.block_intake.specs.Intakes.{unnoted};
ghost use Rattle.steps_command.specs.Following.{admits};
ghost use Rattle.relay_model.specs.Offers.{Answer, offered};
ghost use Rattle.step_text.specs.Limits.{new_world};
ghost use Rattle.step_text.specs.StepText.{first_clash as first_clash_of, place_by, prepend, refusal_of, step_lines, steps_by, tell};
ghost use Rattle.step_text.specs.Taken.{IsTaken, Tells};
ghost use Rattle.fork_db.specs.Batches.{IsGiven, WasGiven};

use block_intake::{Conflict, Intake, IntakeLimits, OfferFault, Offered};
use block_record::{Block, into_slip};
use chain_model::{Mode, Place};
use fork_db::{Batch, ForkDb};
use link_rows::Uncounted;
use std::alloc::{AllocError, Global};
use std::marker::Model;
use std::mem;
use step_text::{Refusal, push_line};

/// How much a run takes.
#[derive(Clone, Copy)]
pub struct RunLimits {
    /// The bytes of a line.
    pub line: u64,
    /// What may be in the history, and wait.
    pub intake: IntakeLimits,
}

/// The limits of a run.
pub const LIMITS: RunLimits = RunLimits {
    line: 67_108_864,
    intake: IntakeLimits {
        history: 4_194_304,
        wait_blocks: 1_024,
        wait_bytes: 536_870_912,
    },
};

/// What takes blocks in, and where a client stands that was told all steps to the heads.
#[derive(Drop)]
pub struct Follower {
    intake: Intake,
    place: Place,
}

impl Model for Follower {
    ghost use Rattle.block_intake.specs.Intakes.{world_taken};
    ghost use Rattle.steps_command.specs.Following.{Following, IsFollowed};

    ghost Value = { Following };

    ghost view = { λ f. record { world = world_taken f.intake; place = f.place } };

    ghost invariant = { λ f. IsFollowed f.intake f.place };
}

impl Follower {
    /// No block, for blocks with numbers of at least `first`, and a client that has received nothing.
    pub fn new(alloc: Global, first: u64) -> Result<Follower, AllocError>
        ensures world { IfOk result (λ f. f.world ≡ new_world first) }
        ensures place { IfOk result (λ f. f.place ≡ no_place) }
    {
        let intake = Intake::new(alloc, first, LIMITS.intake)?;
        Ok(Follower {
            intake,
            place: nowhere(),
        })
    }

    /// Offers each block in order, and appends to the text the steps that they bring about, up to
    /// the first refusal.
    pub fn tell(
        &mut self,
        blocks: Vec<Block>,
        text: &mut Vec<u8>,
    ) -> Result<Option<Refusal>, AllocError>
        ensures { (more : List SlipOf) → IfOk result (λ refusal. Tells
            (prepend text.old.items
            (tell (map slip blocks.items ++ more) self.old.world self.old.place))
            more refusal text.new.items self.new.world self.new.place) }
    {
        for block in blocks {
            let refusal = self.offer(block, text)?;
            if refusal.is_some() {
                return Ok(refusal);
            }
        }
        Ok(None)
    }

    /// Offers a block, tells the steps that it brings about, and gives the refusal, if it is refused
    /// or drops a block that waited.
    fn offer(&mut self, block: Block, text: &mut Vec<u8>) -> Result<Option<Refusal>, AllocError>
        ensures taken { IfOk result (λ refusal. IsTaken (slip block) self.old.world
            (offered self.old.world (slip block)).world self.old.place self.new.place
            text.old.items text.new.items refusal) }
        ensures world { OnOk result
            (self.new.world ≡ unnoted (offered self.old.world (slip block)).world) }
    {
        let answer = self.offer_slip(block);
        self.tell_answer(&answer, text)?;
        let refusal = refusal_by(answer)?;
        Ok(refusal)
    }

    /// Offers a block. Its payload is let go, since no rule needs it any more.
    fn offer_slip(&mut self, block: Block) -> Result<Offered, OfferFault>
        ensures said { IsAnswer (offered self.old.world (slip block)).answer result }
        ensures world { is_mem result ≡ false
            → self.new.world ≡ unnoted (offered self.old.world (slip block)).world }
        ensures place { self.new.place ≡ self.old.place }
    {
        self.intake.offer(into_slip(block), None)
    }

    /// Tells the steps to the head, where the answer admits a block.
    fn tell_answer(
        &mut self,
        answer: &Result<Offered, OfferFault>,
        text: &mut Vec<u8>,
    ) -> Result<(), AllocError>
        ensures world { self.new.world ≡ self.old.world }
        ensures place { (said : Answer) → is_mem answer.now ≡ false → IsAnswer said answer.now
            → OnOk result (self.new.place ≡ place_by said self.old.world.history self.old.place) }
        ensures text { (said : Answer) → is_mem answer.now ≡ false → IsAnswer said answer.now
            → OnOk result (text.new.items ≡ text.old.items
            ++ step_lines (map plain_of (steps_by said self.old.world.history self.old.place))) }
    {
        if !is_admitted(answer) {
            return Ok(());
        }
        self.tell_steps(text)?;
        Ok(())
    }

    /// Tells the steps from where the client stands to the head.
    fn tell_steps(&mut self, text: &mut Vec<u8>) -> Result<(), AllocError>
        ensures world { self.new.world ≡ self.old.world }
        ensures place { OnOk result (self.new.place
            ≡ place_to self.old.world.history self.old.place mode.Live None) }
        ensures text { OnOk result (text.new.items ≡ text.old.items ++ step_lines (map plain_of
            (steps_of self.old.world.history self.old.place mode.Live None))) }
    {
        let place = mem::replace(&mut self.place, nowhere());
        self.place = tell_from(self.intake.history(), place, text)?;
        Ok(())
    }
}

/// The place of a client that has received nothing.
fn nowhere() -> Place
    ensures { result ≡ no_place }
{
    Place {
        end: None,
        lib: None,
    }
}

/// Tells the steps from a place to the head, and gives the place that they lead to.
fn tell_from(db: &ForkDb, place: Place, text: &mut Vec<u8>) -> Result<Place, AllocError>
    requires { PlaceFits db.now.history place.end place.lib }
    ensures place { IfOk result (λ p. p ≡ place_to db.now.history place mode.Live None) }
    ensures text { OnOk result (text.new.items ≡ text.old.items
        ++ step_lines (map plain_of (steps_of db.now.history place mode.Live None))) }
{
    let batch = db.batch_from(place, Mode::Live, None, &mut Uncounted);
    push_steps(db, &batch, text)?;
    let place = db.place_after_all(batch)?;
    Ok(place)
}

/// Appends the lines of the steps of a batch.
fn push_steps(db: &ForkDb, batch: &Batch, text: &mut Vec<u8>) -> Result<(), AllocError>
    requires { WasGiven db.now.history batch.now }
    ensures { (older : List SlipOf) (m : ModeOf) (stop : Option ℕ)
        → IsGiven db.now.history older m stop batch.now
        → OnOk result (text.new.items ≡ text.old.items
        ++ step_lines (map plain_of (steps_of older batch.now.place m stop))) }
{
    for index in 0..db.step_count(batch) {
        push_step(db, batch, index, text)?;
    }
    Ok(())
}

/// Appends the line of the step at an index of a batch, where there is one.
fn push_step(db: &ForkDb, batch: &Batch, index: u64, text: &mut Vec<u8>) -> Result<(), AllocError>
    requires { WasGiven db.now.history batch.now }
    ensures { (older : List SlipOf) (m : ModeOf) (stop : Option ℕ)
        → IsGiven db.now.history older m stop batch.now
        → OnOk result (text.new.items ≡ text.old.items ++ step_lines
        (map plain_of (take 1 (drop index (steps_of older batch.now.place m stop))))) }
{
    match db.step_at(batch, index) {
        Some(found) => {
            let block = db.slip(found.at);
            push_line(found.step, block.num, &block.id, text)
        }
        None => Ok(()),
    }
}

/// Whether an answer admits a block.
fn is_admitted(answer: &Result<Offered, OfferFault>) -> bool
    ensures { result ≡ admits answer.now }
{
    match answer {
        Ok(Offered::Admitted { .. }) => true,
        Ok(Offered::Duplicate | Offered::Waiting | Offered::Early | Offered::Stale) | Err(_) => {
            false
        }
    }
}

/// The refusal that an answer is, if it is one. Nothing closes an intake.
fn refusal_by(answer: Result<Offered, OfferFault>) -> Result<Option<Refusal>, AllocError>
    ensures mem { OnOk result (is_mem answer ≡ false) }
    ensures refusal { (said : Answer) → IsAnswer said answer
        → IfOk result (λ r. r ≡ refusal_of said) }
{
    match answer {
        Ok(Offered::Admitted { dropped, .. }) => Ok(first_clash(dropped)),
        Ok(Offered::Duplicate | Offered::Waiting | Offered::Early | Offered::Stale) => Ok(None),
        Err(OfferFault::Closed { .. }) => Ok(None),
        Err(OfferFault::Conflict(conflict)) => Ok(Some(Refusal::Contradicts(conflict))),
        Err(OfferFault::HistoryFull { len, need }) => Ok(Some(Refusal::HistoryFull { len, need })),
        Err(OfferFault::WaitFull { blocks, bytes }) => {
            Ok(Some(Refusal::WaitFull { blocks, bytes }))
        }
        Err(OfferFault::Mem) => Err(AllocError),
    }
}

/// The first of the conflicts of waiting blocks that were dropped, as a refusal.
fn first_clash(mut dropped: Vec<Conflict>) -> Option<Refusal>
    ensures { result ≡ first_clash_of dropped.items }
{
    if dropped.is_empty() {
        return None;
    }
    Some(Refusal::Contradicts(dropped.swap_remove(0)))
}

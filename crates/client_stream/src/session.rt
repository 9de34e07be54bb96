//! A session, without input or output: it says what it needs, and is given it.

ghost use Rattle.std.specs.Prelude.{◌≡◌, ◌≢◌, ◌++◌, ◌∷◌, ◌<◌, ◌^◌, ◌+◌, [], ℕ, List, IfOk, OnOk, OnErr, IsSome};
ghost use Rattle.std.specs.Option.{option_copied};
ghost use Rattle.std.specs.List.{AllByRecursion};
ghost use Rattle.reply_text.specs.Values.{IsErrorValue, IsValue};
ghost use Rattle.block_record.specs.declared.blocks.Slip.{Slip as SlipOf};
ghost use Rattle.fork_db.specs.Batches.{step_total};
ghost use Rattle.relay_model.specs.Worlds.{World};
ghost use Rattle.relay_model.specs.Looks.{Batch as BatchSaid};
ghost use Rattle.relay_look.specs.Answers.{HasFewSteps};
ghost use Rattle.relay_look.specs.declared.answers.LookFault.TheVariants.{Mem};
ghost use Rattle.reply_text.specs.Replies.{reply_text, Error as ErrorReply, End as EndReply};
ghost use Rattle.session_model.specs.Progress.{batch_stage as batch_stage_of, OpenBatch, Waits, Sends, IsOver, after_look, look_replies, after_step, step_replies};
ghost use Rattle.client_stream.specs.Sent.{HasSent, MayBeAsked};
ghost use Rattle.client_stream.specs.Sessions.{new_state, stage_of, batch_of, HasStepsLeft, IsNeed};
ghost use Rattle.client_stream.specs.Answers.{said_of, batch_in, total_of, opened, batch_after, type_of, IsKindGiven, IsAnswerOf, IsStepOf, end_over, batch_left};

use crate::know::know_id;
use crate::lines::{print_first, print_idle_head, print_last, print_one};
use crate::stage::At;
use block_record::Kind;
use fork_db::{Batch, copy_place};
use join_source::StepOut;
use relay_look::{Look, LookFault, Position};
use reply_text::{ErrorLine, print_end, print_error};
use session_model::SessionOver;
use std::alloc::{AllocError, Global};
use std::marker::Model;
use step_cursor::{Request, Tail};

/// What a session needs next.
#[derive(Clone, Copy)]
pub enum Need<'a> {
    /// The answer to a look from this position.
    Look(&'a Position),
    /// The step at this index of its open batch.
    Chunk { from: u64 },
    /// Nothing: it is over.
    Over(SessionOver),
}

/// What one client is sent, over a history that grows.
#[derive(Drop)]
pub struct Session {
    request: Request,
    run: u64,
    lens: Vec<u64>,
    stage: At,
}

impl Model for Session {
    ghost use Rattle.client_stream.specs.Sessions.{State, state_of, HasStepsLeft};

    ghost Value = { State };

    ghost view = { λ s. state_of s.request s.run s.lens.items s.stage };

    ghost invariant = { λ s. HasStepsLeft s.stage };
}

impl Session {
    /// A session for a request, in a run of the relay.
    pub fn new(alloc: Global, request: Request, run: u64) -> Session
        ensures { result ≡ new_state request run }
    {
        Session {
            request,
            run,
            lens: Vec::new(alloc),
            stage: At::Waits(Position::Start),
        }
    }

    /// The request.
    pub fn request(&self) -> &Request
        ensures { result.now ≡ self.now.progress.request }
    {
        &self.request
    }

    /// The lengths of the history at the batches so far, the open one with them.
    pub fn lens(&self) -> &[u64]
        ensures { result.now ≡ self.now.progress.lens }
    {
        self.lens.as_slice()
    }

    /// The open batch.
    pub fn batch(&self) -> Option<&Batch>
        ensures { option_copied result ≡ self.now.batch }
    {
        match &self.stage {
            At::Sends(batch, _, _) => Some(batch),
            _ => None,
        }
    }

    /// What it needs.
    pub fn need(&self) -> Need<'_>
        ensures need { IsNeed self.now result }

        // It can be asked of each history over which the session has sent what it has.
        ensures asked { (newest : List SlipOf) (type text : List ℕ)
            → HasSent newest type self.now text → MayBeAsked newest self.now result }
    {
        match &self.stage {
            At::Waits(position) => Need::Look(position),
            At::Sends(_, given, _) => Need::Chunk { from: *given },
            At::Over(over) => Need::Over(*over),
        }
    }

    /// Takes the answer to its look, and appends the lines that follow from it. The kept kind is given
    /// with the first batch. At an error nothing has changed.
    pub fn give_look(
        &mut self,
        look: Result<Look, LookFault>,
        kind: Option<&Kind>,
        out: &mut Vec<u8>,
    ) -> Result<(), AllocError>
        requires few { HasFewSteps look }
        requires kind { IsKindGiven self.old.progress.lens kind look }

        // What was written stays what the session writes over the history, now with these lines.
        ensures told { OnOk result
            ((w : World) (newest : List SlipOf) (type text added : List ℕ)
            → HasSent newest type self.old text
            → IsAnswerOf w newest self.old.progress look type (type_of kind.entry)
            → out.new.items ≡ out.old.items ++ added
            → HasSent w.history type self.new (text ++ added)) }

        // And these are the lines.
        ensures progress { OnOk result (self.new.progress
            ≡ after_look (total_of (batch_in look)) self.old.progress (said_of look)) }
        ensures batch { OnOk result (self.new.batch ≡ batch_after self.old.batch look) }
        ensures lines { OnOk result (out.new.items ≡ out.old.items
            ++ reply_text (look_replies (total_of (batch_in look)) (type_of kind.entry)
            self.old.progress (said_of look))) }
        ensures same { OnErr result (self.new ≡ self.old) }
        ensures err { OnErr result (out.new.items ≡ out.old.items) }
    {
        self.take_look(look, kind, out)?;
        Ok(())
    }

    fn take_look(
        &mut self,
        look: Result<Look, LookFault>,
        kind: Option<&Kind>,
        out: &mut Vec<u8>,
    ) -> Result<(), AllocError>
        requires few { HasFewSteps look }
        requires kind { IsKindGiven self.old.progress.lens kind look }
        ensures progress { OnOk result (self.new.progress
            ≡ after_look (total_of (batch_in look)) self.old.progress (said_of look)) }
        ensures batch { OnOk result (self.new.batch ≡ batch_after self.old.batch look) }
        ensures lines { OnOk result (out.new.items ≡ out.old.items
            ++ reply_text (look_replies (total_of (batch_in look)) (type_of kind.entry)
            self.old.progress (said_of look))) }
        ensures mem { OnOk result (look ≢ Err Mem) }
        ensures values { OnOk result (AllByRecursion IsValue (look_replies
            (total_of (batch_in look)) (type_of kind.entry) self.old.progress (said_of look))) }
        ensures same { OnErr result (self.new ≡ self.old) }
        ensures err { OnErr result (out.new.items ≡ out.old.items) }
    {
        match look {
            Ok(Look::Batch(batch)) => self.begin(batch, kind, out),
            Ok(Look::NotYet { .. }) => Ok(()),
            Ok(Look::Done { .. }) => self.end(true, out),
            Ok(Look::Closing { .. }) => self.end(false, out),
            Err(LookFault::Unknown { id }) => {
                know_id(&id);
                self.refuse(ErrorLine::Unknown { id }, out)
            }
            Err(LookFault::Misfit { field }) => self.refuse(ErrorLine::Misfit { field }, out),
            Err(LookFault::StopBelow { end }) => self.refuse(ErrorLine::StopBelow { end }, out),
            Err(LookFault::Mem) => Err(AllocError),
        }
    }

    /// Begins a batch.
    fn begin(
        &mut self,
        batch: Batch,
        kind: Option<&Kind>,
        out: &mut Vec<u8>,
    ) -> Result<(), AllocError>
        requires small { step_total batch < 2 ^ 64 }
        requires kind { self.old.progress.lens ≡ [] → kind ≢ None }
        ensures progress { OnOk result (self.new.progress ≡ after_look (step_total batch)
            self.old.progress (BatchSaid batch.seen batch.place)) }
        ensures batch { OnOk result (self.new.batch ≡ opened (Some batch)) }
        ensures lines { OnOk result (out.new.items ≡ out.old.items
            ++ reply_text (look_replies (step_total batch) (type_of kind.entry)
            self.old.progress (BatchSaid batch.seen batch.place))) }
        ensures values { OnOk result (AllByRecursion IsValue (look_replies (step_total batch)
            (type_of kind.entry) self.old.progress (BatchSaid batch.seen batch.place))) }
        ensures same { OnErr result (self.new ≡ self.old) }
        ensures err { OnErr result (out.new.items ≡ out.old.items) }
    {
        let total = batch.undos + batch.finals + batch.newfinals + batch.news;
        self.lens.reserve(1)?;
        match kind {
            Some(kind) if self.lens.is_empty() => print_first(
                &kind.block_type,
                self.run,
                total,
                batch.seen,
                &batch.place,
                out,
            )?,
            _ => print_idle_head(total, batch.seen, &batch.place, out)?,
        }
        self.lens.push_reserved(batch.seen);
        self.stage = batch_stage(batch, total);
        Ok(())
    }

    /// Ends: the stop is final, or no block will come.
    fn end(&mut self, done: bool, out: &mut Vec<u8>) -> Result<(), AllocError>
        ensures progress { OnOk result (self.new.progress
            ≡ record self.old.progress { stage = IsOver (end_over done) }) }
        ensures batch { OnOk result (self.new.batch ≡ None) }
        ensures lines { OnOk result (out.new.items ≡ out.old.items
            ++ reply_text (EndReply done ∷ [])) }
        ensures same { OnErr result (self.new ≡ self.old) }
        ensures err { OnErr result (out.new.items ≡ out.old.items) }
    {
        print_end(done, out)?;
        self.stage = At::Over(over(done));
        Ok(())
    }

    /// Ends with the line of a refusal.
    fn refuse(&mut self, line: ErrorLine, out: &mut Vec<u8>) -> Result<(), AllocError>
        requires { IsErrorValue line }
        ensures progress { OnOk result (self.new.progress
            ≡ record self.old.progress { stage = IsOver SessionOver.Refused }) }
        ensures batch { OnOk result (self.new.batch ≡ None) }
        ensures lines { OnOk result (out.new.items ≡ out.old.items
            ++ reply_text (ErrorReply line ∷ [])) }
        ensures same { OnErr result (self.new ≡ self.old) }
        ensures err { OnErr result (out.new.items ≡ out.old.items) }
    {
        print_error(&line, out)?;
        self.stage = At::Over(SessionOver::Refused);
        Ok(())
    }

    /// Takes the next step of its open batch, and appends its line, and after the last step the head
    /// line. At an error nothing has changed.
    pub fn give_step(&mut self, step: &StepOut, out: &mut Vec<u8>) -> Result<(), AllocError>
        requires { IsSome self.old.batch }

        // What was written stays what the session writes over the history, now with these lines.
        ensures told { OnOk result ((newest : List SlipOf) (type text added : List ℕ)
            → HasSent newest type self.old text
            → IsStepOf newest self.old.progress step.now
            → out.new.items ≡ out.old.items ++ added
            → HasSent newest type self.new (text ++ added)) }

        // And these are the lines.
        ensures progress { OnOk result ((b : OpenBatch) → self.old.progress.stage ≡ Sends b
            → self.new.progress ≡ after_step self.old.progress b step.now.place) }
        ensures batch { OnOk result ((b : OpenBatch) → self.old.progress.stage ≡ Sends b
            → self.new.batch ≡ batch_left b self.old.batch) }
        ensures lines { OnOk result ((b : OpenBatch) → self.old.progress.stage ≡ Sends b
            → out.new.items ≡ out.old.items ++ reply_text (step_replies
            self.old.progress.run_number b step.now.step step.now.block.value step.now.place)) }
        ensures same { OnErr result (self.new ≡ self.old) }
        ensures err { OnErr result (out.new.items ≡ out.old.items) }
    {
        self.take_step(step, out)?;
        Ok(())
    }

    fn take_step(&mut self, step: &StepOut, out: &mut Vec<u8>) -> Result<(), AllocError>
        requires { IsSome self.old.batch }
        ensures values { OnOk result ((b : OpenBatch) → self.old.progress.stage ≡ Sends b
            → AllByRecursion IsValue (step_replies self.old.progress.run_number b
            step.now.step step.now.block.value step.now.place)) }
        ensures progress { OnOk result ((b : OpenBatch) → self.old.progress.stage ≡ Sends b
            → self.new.progress ≡ after_step self.old.progress b step.now.place) }
        ensures batch { OnOk result ((b : OpenBatch) → self.old.progress.stage ≡ Sends b
            → self.new.batch ≡ batch_left b self.old.batch) }
        ensures lines { OnOk result ((b : OpenBatch) → self.old.progress.stage ≡ Sends b
            → out.new.items ≡ out.old.items ++ reply_text (step_replies
            self.old.progress.run_number b step.now.step step.now.block.value step.now.place)) }
        ensures same { OnErr result (self.new ≡ self.old) }
        ensures err { OnErr result (out.new.items ≡ out.old.items) }
    {
        let run = self.run;
        let At::Sends(batch, given, total) = &mut self.stage else {
            return Ok(());
        };
        let tail = Tail {
            run,
            seen: batch.seen,
        };
        if *given + 1 != *total {
            print_one(step, tail, out)?;
            *given += 1;
            return Ok(());
        }
        let place = copy_place(&step.place)?;
        print_last(step, tail, out)?;
        self.stage = At::Waits(Position::At(place));
        Ok(())
    }
}

/// The stage after a batch of so many steps was given.
fn batch_stage(batch: Batch, total: u64) -> At
    requires { total ≡ step_total batch }
    ensures stage { stage_of result
        ≡ batch_stage_of (step_total batch) batch.seen batch.place }
    ensures batch { batch_of result ≡ opened (Some batch) }
    ensures left { HasStepsLeft result }
{
    if total == 0 {
        At::Waits(Position::At(batch.place))
    } else {
        At::Sends(batch, 0, total)
    }
}

/// How a session ended.
fn over(done: bool) -> SessionOver
    ensures { result ≡ end_over done }
{
    if done {
        SessionOver::Done
    } else {
        SessionOver::Closing
    }
}

//! A client of a relay.

ghost use Rattle.std.specs.Prelude.{◌≡◌, ◌≤◌, [], List, ℕ, OnOk, IfOk, IfErr, IfSome, false};
ghost use Rattle.block_record.specs.declared.blocks.Slip.{Slip as SlipOf};
ghost use Rattle.block_relay.specs.Chronicle.{world_told};
ghost use Rattle.client_stream.specs.Sent.{HasSent};
ghost use Rattle.client_stream.specs.Sessions.{IsSendingAt, new_state};
ghost use Rattle.relay_session.specs.Sending.{Gave, GaveSome, is_none_left, left_after};
ghost use Rattle.relay_session.specs.Serving.{GoesOn, IsServed};
ghost use Rattle.relay_session.specs.Turns.{HasCause, HasGiven, HasGivenRest, IsStill, IsTurn, WasStopped};

use crate::asking::ask;
use crate::know::know_sound;
use crate::sending::{next_items, send_items};
use crate::turn::Turn;
use block_relay::Relay;
use client_stream::{Need, Session, nothing_sent};
use file_source::BlockSource;
use join_source::Joined;
use one_block::StoreFault;
use outer_world::Shelf;
use std::alloc::Global;
use std::marker::Model;
use std::mem;
use step_cursor::Request;

/// A client: its session, and where the blocks that it was sent last were read. Contracts see the
/// session.
#[derive(Drop)]
pub struct Client {
    session: Session,
    source: BlockSource,
    /// How many steps are held at once, at least one.
    chunk: u32,
}

impl Model for Client {
    ghost use Rattle.std.specs.Prelude.{◌≤◌};
    ghost use Rattle.client_stream.specs.Sessions.{State};

    ghost Value = { State };

    ghost view = { λ c. c.session };

    ghost invariant = { λ c. 1 ≤ c.chunk };
}

impl Client {
    /// A client with a request, in a run of the relay. At most `chunk` steps are held at once, and at
    /// least one.
    pub fn new(alloc: Global, request: Request, run: u64, chunk: u32) -> Client
        ensures new { result ≡ new_state request run }
        ensures sent { (newest : List SlipOf) (type : List ℕ) → HasSent newest type result [] }
    {
        nothing_sent();
        Client {
            session: Session::new(alloc, request, run),
            source: BlockSource::new(),
            chunk: chunk.max(1),
        }
    }

    /// Its session.
    pub fn session(&self) -> &Session
        ensures { result.now ≡ self.now }
    {
        &self.session
    }

    /// One look where no batch is open, and then the rest of the batch, or at most `most` of its steps.
    pub fn look<S: Shelf>(
        &mut self,
        alloc: Global,
        relay: &Relay,
        shelf: &mut S,
        most: Option<u64>,
        out: &mut Vec<u8>,
    ) -> Result<Turn, StoreFault>
        requires { IsServed relay.now self.old }

        // What was appended stands, and is what the session has sent.
        ensures told { GoesOn relay.now self.old self.new out.old.items out.new.items }

        // What came of it, and where nothing did.
        ensures turn { IfOk result
            (IsTurn (world_told relay.now) most self.old.progress self.new.progress) }
        ensures still { IsStill result → self.new ≡ self.old }
        ensures silent { IsStill result → out.new.items ≡ out.old.items }

        // Why it was refused, and how far it went.
        ensures refused { IfErr result (HasCause (world_told relay.now).history (S.files shelf.old)
            (S.shelf_faults shelf.old) (S.shelf_faults shelf.new) self.new.progress) }
        ensures stopped { IfErr result (λ _. WasStopped (world_told relay.now) most
            self.old.progress self.new.progress) }
        ensures files { S.files shelf.new ≡ S.files shelf.old }
        ensures staged { S.staged shelf.new ≡ S.staged shelf.old }
        ensures later { S.shelf_faults shelf.old ≤ S.shelf_faults shelf.new }
    {
        let turn = ask(relay, &mut self.session, out)?;
        match turn {
            Turn::Sent => {
                self.send(alloc, relay, shelf, most, out)?;
                Ok(Turn::Sent)
            }
            Turn::NotYet { len } => Ok(Turn::NotYet { len }),
            Turn::WasOver => Ok(Turn::WasOver),
        }
    }

    /// The rest of the open batch, or at most `most` of its steps.
    fn send<S: Shelf>(
        &mut self,
        alloc: Global,
        relay: &Relay,
        shelf: &mut S,
        most: Option<u64>,
        out: &mut Vec<u8>,
    ) -> Result<(), StoreFault>
        requires { IsServed relay.now self.old }
        ensures told { GoesOn relay.now self.old self.new out.old.items out.new.items }
        ensures given { HasGiven most self.old.progress self.new.progress }
        ensures rest { OnOk result (HasGivenRest most self.old.progress self.new.progress) }
        ensures refused { IfErr result (HasCause (world_told relay.now).history (S.files shelf.old)
            (S.shelf_faults shelf.old) (S.shelf_faults shelf.new) self.new.progress) }
        ensures files { S.files shelf.new ≡ S.files shelf.old }
        ensures staged { S.staged shelf.new ≡ S.staged shelf.old }
        ensures later { S.shelf_faults shelf.old ≤ S.shelf_faults shelf.new }
    {
        know_sound(relay);
        let mut left = most;
        while !is_spent(left) {
            let Need::Chunk { from } = self.session.need() else {
                return Ok(());
            };
            let max = chunk_size(left, self.chunk);
            let given = self.send_chunk(alloc, relay, shelf, from, max, out)?;
            left = rest_of(left, given);
        }
        Ok(())
    }

    /// The next steps of the open batch, at most `max`: how many they are.
    fn send_chunk<S: Shelf>(
        &mut self,
        alloc: Global,
        relay: &Relay,
        shelf: &mut S,
        from: u64,
        max: u32,
        out: &mut Vec<u8>,
    ) -> Result<u64, StoreFault>
        requires served { IsServed relay.now self.old }
        requires next { IsSendingAt self.old.progress.stage self.old.batch from }
        requires some { 1 ≤ max }
        ensures gave { GaveSome (world_told relay.now).history max self.old self.new
            out.old.items out.new.items }
        ensures all { IfOk result (λ n. Gave (world_told relay.now).history n self.old self.new
            out.old.items out.new.items) }
        ensures few { IfOk result (λ n. n ≤ max) }
        ensures some { IfOk result (λ n. 1 ≤ n) }
        ensures refused { IfErr result (HasCause (world_told relay.now).history (S.files shelf.old)
            (S.shelf_faults shelf.old) (S.shelf_faults shelf.new) self.new.progress) }
        ensures files { S.files shelf.new ≡ S.files shelf.old }
        ensures staged { S.staged shelf.new ≡ S.staged shelf.old }
        ensures later { S.shelf_faults shelf.old ≤ S.shelf_faults shelf.new }
    {
        let items = next_items(alloc, relay, &self.session, from, max)?;
        let count = items.len() as u64;
        let source = mem::replace(&mut self.source, BlockSource::new());
        let mut joined = Joined::new(alloc, items, source);
        let sent = send_items(&mut self.session, &mut joined, shelf, out);
        let (_, source) = joined.into_parts();
        self.source = source;
        sent?;
        Ok(count)
    }
}

/// Whether no step may be given any more.
fn is_spent(left: Option<u64>) -> bool
    ensures { result ≡ is_none_left left }
{
    left == Some(0)
}

/// How many steps are asked for at once: so many, or as many as may be given.
fn chunk_size(left: Option<u64>, chunk: u32) -> u32
    requires some { is_none_left left ≡ false }
    requires chunk { 1 ≤ chunk }
    ensures some { 1 ≤ result }
    ensures few { IfSome left (λ n. result ≤ n) }
{
    match left {
        Some(n) if n < u64::from(chunk) => n as u32,
        _ => chunk,
    }
}

/// How many steps may be given after these.
fn rest_of(left: Option<u64>, given: u64) -> Option<u64>
    requires { IfSome left (λ n. given ≤ n) }
    ensures { result ≡ left_after left given }
{
    match left {
        Some(n) => Some(n - given),
        None => None,
    }
}

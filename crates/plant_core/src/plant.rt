//! A relay with its readers and clients, to which events happen.

ghost use Rattle.std.specs.Prelude.{◌≡◌, ◌≤◌, ◌++◌, ◌∷◌, [], List, Option, ℕ, IfErr, None, OnErr, OnOk, Some};
ghost use Rattle.block_relay.specs.Chronicle.{world_told};
ghost use Rattle.plant_core.specs.Events.{HasFed, HasLooked, HasLookedFront, HasMerged, HasMergedFront, Happens, IsCutOff, IsFedCutOff, after_end, told_closed};
ghost use Rattle.plant_core.specs.Moments.{AllOwn, IsSteady, moment, plant_of, reader_of};
ghost use Rattle.outer_world.specs.Files.{Files};
ghost use Rattle.script_clients.specs.Opening.{IsOpened};

use crate::readers::{Reader, enrol};
use block_record::ReaderName;
use block_relay::{Limits, Relay};
use bundle_merger::merge_owned;
use one_block::StoreFault;
use outer_world::Shelf;
use own_laws::merges_stay;
use replay_text::push_merged;
use script_clients::{Clients, served_stay};
use script_text::Event;
use std::alloc::{AllocError, Global};
use std::marker::Model;
use std::mem;

/// A relay, the readers that bring it blocks, and the clients that it serves.
#[derive(Drop)]
pub struct Plant {
    relay: Relay,
    run: u64,
    limits: Limits,
    readers: Vec<Reader>,
    clients: Clients,
    /// The piece that a reader is fed, kept for its room.
    piece: Vec<u8>,
}

impl Model for Plant {
    ghost use Rattle.std.specs.Prelude.{◌≡◌};
    ghost use Rattle.block_relay.specs.Chronicle.{world_told};
    ghost use Rattle.plant_core.specs.Moments.{PlantState};

    ghost Value = { PlantState };

    ghost view = { λ p. record {
      told = p.relay;
      run = p.run;
      limits = p.limits;
      readers = p.readers.items;
      clients = p.clients;
    } };
}

impl Plant {
    /// A relay of this run and of these limits, without readers and clients.
    pub fn new(alloc: Global, relay: Relay, run: u64, limits: Limits) -> Plant
        requires { (world_told relay).run ≡ run }
        ensures steady { IsSteady result }
        ensures plant { result ≡ plant_of relay run limits }
    {
        Plant {
            relay,
            run,
            limits,
            readers: Vec::new(alloc),
            clients: Clients::new(alloc),
            piece: Vec::new(alloc),
        }
    }

    /// The relay, where nothing more happens.
    pub fn into_relay(self) -> Relay
        ensures { result ≡ self.told }
    {
        self.relay
    }

    /// An event: what it writes is appended. At an error what was written before it stands.
    pub fn run_event<S: Shelf>(
        &mut self,
        alloc: Global,
        event: &Event,
        shelf: &mut S,
        out: &mut Vec<u8>,
    ) -> Result<(), StoreFault>
        requires steady { IsSteady self.old }
        requires own { AllOwn (S.files shelf.old) self.old.readers }
        ensures ok { OnOk result (Happens event.now
            (moment self.old (S.files shelf.old) (S.shelf_faults shelf.old) out.old.items)
            (moment self.new (S.files shelf.new) (S.shelf_faults shelf.new) out.new.items)) }
        ensures err { IfErr result (IsCutOff event.now
            (moment self.old (S.files shelf.old) (S.shelf_faults shelf.old) out.old.items)
            (moment self.new (S.files shelf.new) (S.shelf_faults shelf.new) out.new.items)) }
        ensures steady { OnOk result (IsSteady self.new) }
        ensures own { OnOk result (AllOwn (S.files shelf.new) self.new.readers) }
        ensures later { S.shelf_faults shelf.old ≤ S.shelf_faults shelf.new }
    {
        match event {
            Event::Bytes { reader, bytes } => self.feed(
                alloc,
                reader,
                bytes.as_bytes(),
                shelf,
                out,
            ),
            Event::Line { reader, text } => self.feed_line(
                alloc,
                reader,
                text.as_bytes(),
                shelf,
                out,
            ),
            Event::Death { reader } => self.end_run(alloc, reader, out),
            Event::Open { client, request } => {
                self.open(alloc, client.as_bytes(), request.as_bytes(), out)
            }
            Event::Look { client } => self.look(alloc, client.as_bytes(), None, shelf, out),
            Event::Part { client, steps } => {
                self.look(alloc, client.as_bytes(), Some(*steps), shelf, out)
            }
            Event::Drop { client } => {
                self.clients.remove(client.as_bytes());
                Ok(())
            }
            Event::Merge => self.merge(alloc, shelf, out),
            Event::Close => {
                self.close();
                Ok(())
            }
        }
    }

    /// A reader's node wrote a line of this text.
    fn feed_line<S: Shelf>(
        &mut self,
        alloc: Global,
        reader: &ReaderName,
        text: &[u8],
        shelf: &mut S,
        out: &mut Vec<u8>,
    ) -> Result<(), StoreFault>
        requires steady { IsSteady self.old }
        requires own { AllOwn (S.files shelf.old) self.old.readers }
        ensures ok { OnOk result (HasFed reader.now (text.now ++ 10 ∷ [])
            (moment self.old (S.files shelf.old) (S.shelf_faults shelf.old) out.old.items)
            (moment self.new (S.files shelf.new) (S.shelf_faults shelf.new) out.new.items)) }
        ensures err { IfErr result (IsFedCutOff reader.now (text.now ++ 10 ∷ [])
            (moment self.old (S.files shelf.old) (S.shelf_faults shelf.old) out.old.items)
            (moment self.new (S.files shelf.new) (S.shelf_faults shelf.new) out.new.items)) }
        ensures steady { OnOk result (IsSteady self.new) }
        ensures own { OnOk result (AllOwn (S.files shelf.new) self.new.readers) }
        ensures later { S.shelf_faults shelf.old ≤ S.shelf_faults shelf.new }
    {
        let mut piece = mem::replace(&mut self.piece, Vec::new(alloc));
        push_line(text, &mut piece)?;
        let fed = self.feed(alloc, reader, piece.as_slice(), shelf, out);
        self.piece = piece;
        fed
    }

    /// A reader's node wrote these bytes.
    fn feed<S: Shelf>(
        &mut self,
        alloc: Global,
        reader: &ReaderName,
        piece: &[u8],
        shelf: &mut S,
        out: &mut Vec<u8>,
    ) -> Result<(), StoreFault>
        requires steady { IsSteady self.old }
        requires own { AllOwn (S.files shelf.old) self.old.readers }
        ensures ok { OnOk result (HasFed reader.now piece.now
            (moment self.old (S.files shelf.old) (S.shelf_faults shelf.old) out.old.items)
            (moment self.new (S.files shelf.new) (S.shelf_faults shelf.new) out.new.items)) }
        ensures err { IfErr result (IsFedCutOff reader.now piece.now
            (moment self.old (S.files shelf.old) (S.shelf_faults shelf.old) out.old.items)
            (moment self.new (S.files shelf.new) (S.shelf_faults shelf.new) out.new.items)) }
        ensures steady { OnOk result (IsSteady self.new) }
        ensures own { OnOk result (AllOwn (S.files shelf.new) self.new.readers) }
        ensures later { S.shelf_faults shelf.old ≤ S.shelf_faults shelf.new }
    {
        served_stay();
        let place = enrol(alloc, self.limits.line as usize, reader, &mut self.readers)?;
        let reader = &mut self.readers[place];
        reader
            .node
            .feed(alloc, &mut self.relay, shelf, &mut reader.own, piece, out)
    }

    /// The run of a reader's node ends, and a new one begins.
    fn end_run(
        &mut self,
        alloc: Global,
        reader: &ReaderName,
        out: &mut Vec<u8>,
    ) -> Result<(), StoreFault>
        requires steady { IsSteady self.old }
        ensures ok { OnOk result ((files : Option Files) (faults : ℕ)
            → moment self.new files faults out.new.items
            ≡ after_end (reader_of self.old.limits.line reader.now self.old.readers)
            (moment self.old files faults out.old.items)) }
        ensures err { OnErr result (out.new.items ≡ out.old.items) }
        ensures steady { IsSteady self.new }
        ensures own { (files : Option Files) → AllOwn files self.old.readers
            → AllOwn files self.new.readers }
        ensures mem { IfErr result (λ fault. fault ≡ StoreFault.Mem) }
    {
        let place = enrol(alloc, self.limits.line as usize, reader, &mut self.readers)?;
        self.readers[place].node.end(out)?;
        Ok(())
    }

    /// A client connects with this request line.
    fn open(
        &mut self,
        alloc: Global,
        client: &[u8],
        request: &[u8],
        out: &mut Vec<u8>,
    ) -> Result<(), StoreFault>
        requires steady { IsSteady self.old }
        ensures ok { OnOk result (IsOpened self.old.limits.request self.old.run client.now request.now
            self.old.clients self.new.clients out.old.items out.new.items) }
        ensures plant { self.new ≡ record self.old { clients = self.new.clients } }
        ensures err { OnErr result (out.new.items ≡ out.old.items) }
        ensures steady { OnOk result (IsSteady self.new) }
        ensures mem { IfErr result (λ fault. fault ≡ StoreFault.Mem) }
    {
        self.clients
            .open(alloc, self.run, self.limits, client, request, out)?;
        Ok(())
    }

    /// A client looks, and is sent at most so many steps.
    fn look<S: Shelf>(
        &mut self,
        alloc: Global,
        client: &[u8],
        most: Option<u64>,
        shelf: &mut S,
        out: &mut Vec<u8>,
    ) -> Result<(), StoreFault>
        requires steady { IsSteady self.old }
        requires own { AllOwn (S.files shelf.old) self.old.readers }
        ensures ok { OnOk result (HasLooked most client.now
            (moment self.old (S.files shelf.old) (S.shelf_faults shelf.old) out.old.items)
            (moment self.new (S.files shelf.new) (S.shelf_faults shelf.new) out.new.items)) }
        ensures err { IfErr result (HasLookedFront most client.now
            (moment self.old (S.files shelf.old) (S.shelf_faults shelf.old) out.old.items)
            (moment self.new (S.files shelf.new) (S.shelf_faults shelf.new) out.new.items)) }
        ensures steady { OnOk result (IsSteady self.new) }
        ensures own { OnOk result (AllOwn (S.files shelf.new) self.new.readers) }
        ensures later { S.shelf_faults shelf.old ≤ S.shelf_faults shelf.new }
    {
        self.clients
            .look(alloc, &self.relay, shelf, client, most, out)
    }

    /// A merge pass.
    fn merge<S: Shelf>(
        &mut self,
        alloc: Global,
        shelf: &mut S,
        out: &mut Vec<u8>,
    ) -> Result<(), StoreFault>
        requires steady { IsSteady self.old }
        requires own { AllOwn (S.files shelf.old) self.old.readers }
        ensures ok { OnOk result (HasMerged
            (moment self.old (S.files shelf.old) (S.shelf_faults shelf.old) out.old.items)
            (moment self.new (S.files shelf.new) (S.shelf_faults shelf.new) out.new.items)) }
        ensures err { IfErr result (HasMergedFront
            (moment self.old (S.files shelf.old) (S.shelf_faults shelf.old) out.old.items)
            (moment self.new (S.files shelf.new) (S.shelf_faults shelf.new) out.new.items)) }
        ensures steady { OnOk result (IsSteady self.new) }
        ensures own { OnOk result (AllOwn (S.files shelf.new) self.new.readers) }
        ensures later { S.shelf_faults shelf.old ≤ S.shelf_faults shelf.new }
    {
        served_stay();
        merges_stay();
        let merged = merge_owned(alloc, &mut self.relay, shelf)?;
        push_merged(merged, out)?;
        Ok(())
    }

    /// The relay is closed.
    fn close(&mut self)
        requires steady { IsSteady self.old }
        ensures steady { IsSteady self.new }
        ensures closed { self.new ≡ record self.old { told = told_closed self.old.told } }
    {
        served_stay();
        self.relay.close();
    }
}

/// Makes a line of a text.
fn push_line(text: &[u8], line: &mut Vec<u8>) -> Result<(), AllocError>
    ensures { OnOk result (line.new.items ≡ text.now ++ 10 ∷ []) }
{
    line.clear();
    line.extend_from_slice(text)?;
    line.push(b'\n')?;
    Ok(())
}

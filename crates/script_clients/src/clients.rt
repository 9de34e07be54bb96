//! The clients of a replay.

ghost use Rattle.std.specs.Prelude.{◌≡◌, ◌≤◌, ◌<◌, ◌++◌, [], IfErr, None, OnErr, OnOk, Some, length};
ghost use Rattle.block_relay.specs.Chronicle.{Told, world_told};
ghost use Rattle.reply_text.specs.Lines.{error_line};
ghost use Rattle.replay_text.specs.Replies.{client_lines};
ghost use Rattle.script_clients.specs.Clients.{place_of as place_in, with_client, without_client};
ghost use Rattle.script_clients.specs.Looking.{IsLooked, IsStopped};
ghost use Rattle.script_clients.specs.Opening.{IsOpened};
ghost use Rattle.script_clients.specs.Serving.{AllServed};

use crate::know::know_sound;
use crate::looking::{push_gone, push_look};
use crate::named::{Named, place_of};
use crate::opening::{OpenFault, read_request};
use block_record::Bytes;
use block_relay::{Limits, Relay};
use one_block::StoreFault;
use outer_world::Shelf;
use relay_session::Client;
use replay_text::push_replies;
use reply_text::{ErrorLine, print_error};
use std::alloc::{AllocError, Global};
use std::marker::Model;
use text_parts::keep_front;

/// The clients of a replay, by their names. Contracts see them in order, each with its session.
#[derive(Drop)]
pub struct Clients {
    clients: Vec<Named>,
    /// What one event sent to its client, kept for its room.
    sent: Vec<u8>,
}

impl Model for Clients {
    ghost use Rattle.std.specs.Prelude.{List};
    ghost use Rattle.script_clients.specs.declared.named.Named.{Named};

    ghost Value = { List Named };

    ghost view = { λ c. c.clients.items };
}

impl Clients {
    /// No clients.
    pub fn new(alloc: Global) -> Clients
        ensures { result ≡ [] }
    {
        Clients {
            clients: Vec::new(alloc),
            sent: Vec::new(alloc),
        }
    }

    /// A client connects with this request line, without its LF, to the relay of this run and of these
    /// limits. One that has the name already is replaced. At an error nothing has changed.
    pub fn open(
        &mut self,
        alloc: Global,
        run: u64,
        limits: Limits,
        name: &[u8],
        request: &[u8],
        out: &mut Vec<u8>,
    ) -> Result<(), AllocError>
        ensures ok { OnOk result (IsOpened limits.request run name.now request.now
            self.old self.new out.old.items out.new.items) }
        ensures same { OnErr result (self.new ≡ self.old) }
        ensures err { OnErr result (out.new.items ≡ out.old.items) }

        // A relay of this run that serves all clients goes on to.
        ensures served { (t : Told) → (world_told t).run ≡ run
            → AllServed t self.old → AllServed t self.new }
    {
        match read_request(alloc, limits.request, request) {
            Ok(request) => {
                let client = Client::new(alloc, request, run, limits.chunk);
                self.put(alloc, name, Some(client))?;
                Ok(())
            }
            Err(OpenFault::Refused(line)) => self.refuse(alloc, name, &line, out),
            Err(OpenFault::Mem) => Err(AllocError),
        }
    }

    /// One look of a client where no batch of it is open, and then the rest of the batch, or at most
    /// `most` of its steps.
    pub fn look<S: Shelf>(
        &mut self,
        alloc: Global,
        relay: &Relay,
        shelf: &mut S,
        name: &[u8],
        most: Option<u64>,
        out: &mut Vec<u8>,
    ) -> Result<(), StoreFault>
        requires { AllServed relay.now self.old }
        ensures served { AllServed relay.now self.new }
        ensures ok { OnOk result (IsLooked relay.now most name.now
            self.old self.new out.old.items out.new.items) }
        ensures err { IfErr result (IsStopped relay.now most name.now (S.files shelf.old)
            (S.shelf_faults shelf.old) (S.shelf_faults shelf.new)
            self.old self.new out.old.items out.new.items) }
        ensures files { S.files shelf.new ≡ S.files shelf.old }
        ensures staged { S.staged shelf.new ≡ S.staged shelf.old }
        ensures later { S.shelf_faults shelf.old ≤ S.shelf_faults shelf.new }
    {
        match place_of(name, &self.clients) {
            Some(place) => self.look_at(alloc, relay, shelf, place, name, most, out),
            None => push_gone(name, out),
        }
    }

    /// A client's connection ends.
    pub fn remove(&mut self, name: &[u8])
        ensures removed { self.new ≡ without_client name.now self.old }
        ensures served { (t : Told) → AllServed t self.old → AllServed t self.new }
    {
        self.clients.retain(|one| one.name.as_bytes() != name);
    }

    /// Keeps a client under its name. At an error nothing has changed.
    fn put(&mut self, alloc: Global, name: &[u8], client: Option<Client>) -> Result<(), AllocError>
        ensures ok { OnOk result (self.new ≡ with_client name.now client self.old) }
        ensures same { OnErr result (self.new ≡ self.old) }
    {
        match place_of(name, &self.clients) {
            Some(place) => {
                self.clients[place].replace(client);
                Ok(())
            }
            None => {
                let name = Bytes::new(alloc, name)?;
                self.clients.push(Named { name, client })?;
                Ok(())
            }
        }
    }

    /// Refuses a client with this line: it is over. At an error nothing has changed.
    fn refuse(
        &mut self,
        alloc: Global,
        name: &[u8],
        line: &ErrorLine,
        out: &mut Vec<u8>,
    ) -> Result<(), AllocError>
        ensures ok { OnOk result (self.new ≡ with_client name.now None self.old) }
        ensures told { OnOk result (out.new.items
            ≡ out.old.items ++ client_lines name.now (error_line line.now)) }
        ensures same { OnErr result (self.new ≡ self.old) }
        ensures err { OnErr result (out.new.items ≡ out.old.items) }
    {
        let kept = out.len();
        self.tell(name, line, out)?;
        let put = self.put(alloc, name, None);
        keep_front(put, kept, out)
    }

    /// Appends the line of a refusal.
    fn tell(&mut self, name: &[u8], line: &ErrorLine, out: &mut Vec<u8>) -> Result<(), AllocError>
        ensures same { self.new ≡ self.old }
        ensures told { OnOk result (out.new.items
            ≡ out.old.items ++ client_lines name.now (error_line line.now)) }
        ensures err { OnErr result (out.new.items ≡ out.old.items) }
    {
        self.sent.clear();
        print_error(line, &mut self.sent)?;
        push_replies(name, &self.sent, out)
    }

    /// The same for the client at a place.
    fn look_at<S: Shelf>(
        &mut self,
        alloc: Global,
        relay: &Relay,
        shelf: &mut S,
        place: usize,
        name: &[u8],
        most: Option<u64>,
        out: &mut Vec<u8>,
    ) -> Result<(), StoreFault>
        requires served { AllServed relay.now self.old }
        requires place { place_in name.now self.old ≡ Some place }
        requires within { place < length self.old }
        ensures served { AllServed relay.now self.new }
        ensures ok { OnOk result (IsLooked relay.now most name.now
            self.old self.new out.old.items out.new.items) }
        ensures err { IfErr result (IsStopped relay.now most name.now (S.files shelf.old)
            (S.shelf_faults shelf.old) (S.shelf_faults shelf.new)
            self.old self.new out.old.items out.new.items) }
        ensures files { S.files shelf.new ≡ S.files shelf.old }
        ensures staged { S.staged shelf.new ≡ S.staged shelf.old }
        ensures later { S.shelf_faults shelf.old ≤ S.shelf_faults shelf.new }
    {
        know_sound(relay);
        let Some(client) = &mut self.clients[place].client else {
            return push_gone(name, out);
        };
        self.sent.clear();
        let looked = client.look(alloc, relay, shelf, most, &mut self.sent);
        push_look(name, looked, &self.sent, out)
    }
}

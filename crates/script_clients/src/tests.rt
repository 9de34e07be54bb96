//! What clients are written.

use crate::Clients;
use block_relay::{Limits, Relay};
use memory_world::MemoryShelf;
use std::alloc::Global;
use std::marker::Model;
use std::process::Abort;
use std::test::Fail;

const RUN: u64 = 7;

const LIMITS: Limits = Limits {
    line: 1_000,
    request: 30,
    wait_blocks: 4,
    wait_bytes: 1_000,
    history: 9,
    chunk: 2,
    deaths: 1,
    hold: 9,
};

/// What happens to a client.
#[derive(Clone, Copy)]
enum Event {
    Open(&'static str, &'static str),
    Look(&'static str, Option<u64>),
    Remove(&'static str),
}

/// Each event, and a request of 30 bytes, and one of 31.
const EVENTS: [Event; 9] = [
    Event::Open("a", "{\"start_block_num\":12345678901}"),
    Event::Look("a", None),
    Event::Open("a", "{\"start_block_num\":1234567890}"),
    Event::Look("a", None),
    Event::Open("b", "{\"start_block_num\":-1}"),
    Event::Look("b", Some(1)),
    Event::Look("a", Some(1)),
    Event::Remove("a"),
    Event::Look("a", None),
];

const WRITTEN: &str = "a {\"error\":\"too_long\"}
a over
a notyet 0
b {\"error\":\"bad_request\",\"field\":\"start_block_num\"}
b over
a notyet 0
a over
";

/// The clients of an empty relay.
#[derive(Drop)]
struct Plant {
    relay: Relay,
    shelf: MemoryShelf,
    clients: Clients,
    out: Vec<u8>,
}

// Clauses see nothing of a plant, which keeps the proof of the test small.
impl Model for Plant {
    ghost use Rattle.std.specs.Prelude.{⊤, ◌≡◌};
    ghost use Rattle.block_relay.specs.Chronicle.{world_told};
    ghost use Rattle.script_clients.specs.Serving.{AllServed};

    ghost Value = { ⊤ };

    ghost view = { λ _. tt };

    ghost invariant = { λ p. AllServed p.relay p.clients × ((world_told p.relay).run ≡ 7) };
}

impl Plant {
    fn new(alloc: Global) -> Result<Plant, Fail> {
        let relay = Relay::new(alloc, 1, RUN, LIMITS)?;
        Ok(Plant {
            relay,
            shelf: MemoryShelf::new(alloc),
            clients: Clients::new(alloc),
            out: Vec::new(alloc),
        })
    }

    fn happens(&mut self, alloc: Global, event: Event) -> Result<(), Fail> {
        match event {
            Event::Open(name, line) => self.open(alloc, name.as_bytes(), line.as_bytes()),
            Event::Look(name, most) => self.look(alloc, name.as_bytes(), most),
            Event::Remove(name) => {
                self.remove(name.as_bytes());
                Ok(())
            }
        }
    }

    fn open(&mut self, alloc: Global, name: &[u8], line: &[u8]) -> Result<(), Fail> {
        self.clients
            .open(alloc, RUN, LIMITS, name, line, &mut self.out)?;
        Ok(())
    }

    fn remove(&mut self, name: &[u8]) {
        self.clients.remove(name);
    }

    fn look(&mut self, alloc: Global, name: &[u8], most: Option<u64>) -> Result<(), Fail> {
        self.clients.look(
            alloc,
            &self.relay,
            &mut self.shelf,
            name,
            most,
            &mut self.out,
        )?;
        Ok(())
    }
}

#[test]
fn events_are_written(rt: HostRuntime) -> Result<(), Fail> {
    let alloc = rt.alloc();
    let mut plant = Plant::new(alloc)?;
    for event in EVENTS {
        plant.happens(alloc, event)?;
    }
    assert!(rt; plant.out.as_slice() == WRITTEN.as_bytes());
    Ok(())
}

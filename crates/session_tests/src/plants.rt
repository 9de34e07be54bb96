//! A relay with its shelf, and a client of it, without a link.

ghost use Rattle.std.specs.Prelude.{◌≡◌, IfOk, IsSome};
ghost use Rattle.block_relay.specs.Chronicle.{world_told};

use block_record::{Block, Kind, TypeName, Version};
use block_relay::{Limits, OfferFault, Offered, Relay};
use bundle_merger::merge_owned;
use history_tests::blocks::{Whole, whole_block};
use memory_world::MemoryShelf;
use relay_session::Client;
use std::alloc::Global;
use std::marker::Model;
use std::sync::Arc;
use std::test::Fail;
use step_cursor::Request;

/// The run of each relay.
const RUN: u64 = 700;

const LIMITS: Limits = Limits {
    line: 1_000,
    request: 1_000,
    wait_blocks: 9,
    wait_bytes: 9,
    history: 9,
    chunk: 2,
    deaths: 5,
    hold: 3,
};

/// What happens to a plant.
#[derive(Clone, Copy)]
pub enum Event {
    /// These blocks are offered, one after another.
    Offer(&'static [Whole]),
    /// What is due is merged, after which so many blocks have their payloads.
    Merge { retained: u64 },
    Close,
    /// The client has a look, and at most so many steps where there is a limit.
    Look(Option<u64>),
}

/// A relay of test.Block with its shelf, a client of it, and what the client was sent.
#[derive(Drop)]
pub struct Plant {
    relay: Relay,
    shelf: MemoryShelf,
    client: Client,
    sent: Vec<u8>,
}

// Clauses see nothing of a plant, which keeps the proofs of tests small.
impl Model for Plant {
    ghost use Rattle.std.specs.Prelude.{⊤};
    ghost use Rattle.session_tests.specs.Plants.{IsServing};

    ghost Value = { ⊤ };

    ghost view = { λ _. tt };

    ghost invariant = { λ p. IsServing p.relay p.client };
}

impl Plant {
    /// A plant without blocks, whose client has this request.
    pub fn new(alloc: Global, request: Request) -> Result<Plant, Fail> {
        let relay = greeted(alloc)?;
        Ok(Plant {
            relay,
            shelf: MemoryShelf::new(alloc),
            client: Client::new(alloc, request, RUN, LIMITS.chunk),
            sent: Vec::new(alloc),
        })
    }

    /// Gives the plant up. Nothing else does, since each place that does takes a long proof.
    pub fn close(self) {}

    /// What the client was sent.
    pub fn sent(&self) -> &[u8] {
        self.sent.as_slice()
    }

    /// Lets this happen, one event after another.
    pub fn go_through(&mut self, alloc: Global, events: &[Event]) -> Result<(), Fail> {
        for event in events {
            self.go_on(alloc, *event)?;
        }
        Ok(())
    }

    fn go_on(&mut self, alloc: Global, event: Event) -> Result<(), Fail> {
        match event {
            Event::Offer(blocks) => self.offer_all(alloc, blocks),
            Event::Merge { retained } => self.merge(alloc, retained),
            Event::Close => self.close_relay(),
            Event::Look(most) => self.look(alloc, most),
        }
    }

    /// Offers blocks, each of which is to be admitted.
    fn offer_all(&mut self, alloc: Global, blocks: &[Whole]) -> Result<(), Fail> {
        for fields in blocks {
            self.offer(alloc, *fields)?;
        }
        Ok(())
    }

    fn offer(&mut self, alloc: Global, fields: Whole) -> Result<(), Fail> {
        let block = shared(alloc, fields)?;
        let answer = self.relay.offer(block);
        expect(is_admission(&answer), "a block was not admitted")
    }

    fn merge(&mut self, alloc: Global, retained: u64) -> Result<(), Fail> {
        let _merged = merge_owned(alloc, &mut self.relay, &mut self.shelf)?;
        expect(
            self.relay.retained() == retained,
            "another count is retained",
        )
    }

    fn close_relay(&mut self) -> Result<(), Fail> {
        self.relay.close();
        Ok(())
    }

    fn look(&mut self, alloc: Global, most: Option<u64>) -> Result<(), Fail> {
        self.client
            .look(alloc, &self.relay, &mut self.shelf, most, &mut self.sent)?;
        Ok(())
    }
}

/// A relay without blocks that knows its kind.
fn greeted(alloc: Global) -> Result<Relay, Fail>
    ensures run { IfOk result (λ r. (world_told r).run ≡ RUN) }
    ensures kind { IfOk result (λ r. IsSome (world_told r).kind) }
{
    let mut relay = Relay::new(alloc, 0, RUN, LIMITS)?;
    let kind = kind(alloc)?;
    match relay.hello(&kind) {
        Ok(()) => Ok(relay),
        Err(_) => Err("the kind was not kept".into()),
    }
}

fn kind(alloc: Global) -> Result<Kind, Fail> {
    let block_type = TypeName::new(alloc, b"test.Block")?.ok_or("no type")?;
    Ok(Kind {
        version: Version::V3,
        block_type,
    })
}

/// The block with these fields, to be shared.
fn shared(alloc: Global, fields: Whole) -> Result<Arc<Block>, Fail> {
    let block = whole_block(alloc, fields)?.ok_or("no block")?;
    let block = Arc::new(alloc, block)?;
    Ok(block)
}

fn is_admission(answer: &Result<Offered, OfferFault>) -> bool {
    matches!(answer, Ok(Offered::Admitted { .. }))
}

fn expect(holds: bool, what: &'static str) -> Result<(), Fail> {
    if holds { Ok(()) } else { Err(what.into()) }
}

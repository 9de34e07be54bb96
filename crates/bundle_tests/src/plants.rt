//! Relays with their shelves, and the reader that feeds them.

use crate::blocks::{block_of, chain_block, kind};
use crate::shelves::{TestShelf, shelf_of, text_of};
use block_reader::{OwnFiles, TakeFault, take_owned};
use block_record::{Block, Kind, ReaderName};
use block_relay::{Limits, OfferFault, Offered, Relay};
use bundle_merger::{Merged, merge_owned};
use history_tests::blocks::Whole;
use one_block::StoreFault;
use std::alloc::{AllocError, Global};
use std::marker::Model;
use std::sync::Arc;
use std::test::Fail;

const LIMITS: Limits = Limits {
    line: 1_000,
    request: 1_000,
    wait_blocks: 9,
    wait_bytes: 9,
    history: 300,
    chunk: 2,
    deaths: 5,
    hold: 3,
};

/// What a merge is answered.
#[derive(Clone, Copy, PartialEq, Eq)]
pub enum MergeAnswer {
    /// How many bundles it wrote, and how many final blocks are stored and how many blocks retained then.
    Merged {
        bundles: u64,
        stored: u64,
        retained: u64,
    },
    Failed,
    Other,
}

/// What a take is answered.
#[derive(Clone, Copy, PartialEq, Eq)]
pub enum TakeAnswer {
    Admitted,
    Duplicate,
    Contradicts,
    Failed,
    Other,
}

/// The names of a block's files.
#[derive(Clone, Copy)]
pub struct Names {
    pub one: &'static str,
    pub refused: &'static str,
}

/// Which files of a block are there; and how many own files, conflicts and blocks there are.
#[derive(Clone, Copy, PartialEq, Eq)]
pub struct Left {
    pub one: bool,
    pub refused: bool,
    pub own: usize,
    pub conflicts: usize,
    pub blocks: u64,
}

/// A reader by its name, and the kind of its blocks.
#[derive(Drop)]
struct Node {
    name: ReaderName,
    kind: Kind,
}

/// A relay with room for 300 blocks and its shelf, and the reader r1 of test.Block with its own files.
#[derive(Drop)]
pub struct Plant {
    relay: Relay,
    shelf: TestShelf,
    node: Node,
    own: OwnFiles,
}

// Clauses see nothing of a plant, which keeps the proofs of tests small.
impl Model for Plant {
    ghost use Rattle.std.specs.Prelude.{⊤, Some};
    ghost use Rattle.block_reader.specs.Kept.{AreOwn};

    ghost Value = { ⊤ };

    ghost view = { λ _. tt };

    ghost invariant = { λ p. AreOwn (Some p.shelf.inner.files) p.own };
}

impl Plant {
    /// A plant with bundles of 100 numbers, or of 1,000 where it is wide. The shelf's call of this number
    /// fails, counted from 0, if one is given.
    pub fn new(alloc: Global, wide: bool, fails: Option<u64>) -> Result<Plant, Fail> {
        let node = node_of(alloc)?;
        let shelf = shelf_of(alloc, fails)?;
        let relay = relay_of(alloc, wide)?;
        Ok(Plant {
            relay,
            shelf,
            node,
            own: OwnFiles::new(alloc),
        })
    }

    /// Gives the plant up. Nothing else does, since each place that does takes a long proof.
    pub fn close(self) {}

    /// Offers blocks with these fields, each of which is to be admitted.
    pub fn admit_all(&mut self, alloc: Global, rows: &[Whole]) -> Result<(), Fail> {
        for fields in rows {
            self.admit(alloc, *fields)?;
        }
        Ok(())
    }

    fn admit(&mut self, alloc: Global, fields: Whole) -> Result<(), Fail> {
        let block = block_of(alloc, fields)?;
        self.offer(alloc, block)?;
        Ok(())
    }

    /// Offers the block of a chain with this number, which is to be admitted.
    pub fn admit_chain(&mut self, alloc: Global, num: u64, parent: u64) -> Result<(), Fail> {
        let block = chain_block(alloc, num, parent)?;
        self.offer(alloc, block)?;
        Ok(())
    }

    /// Offers a block, which is to be admitted, of the kind that the relay knows.
    fn offer(&mut self, alloc: Global, block: Block) -> Result<(), Fail> {
        let block = Arc::new(alloc, block)?;
        let _ = self.relay.hello(&self.node.kind).is_ok();
        if !is_admitted(&mut self.relay, block) {
            Err("a block was not admitted")?;
        }
        Ok(())
    }

    /// Merges all that is due. The reader begins anew, without own files.
    pub fn merge(&mut self, alloc: Global) -> MergeAnswer {
        self.own = OwnFiles::new(alloc);
        let merged = merge_owned(alloc, &mut self.relay, &mut self.shelf);
        self.told(&merged)
    }

    /// Merges all that is due onto a shelf whose first call fails.
    pub fn merge_broken(&mut self, alloc: Global) -> Result<MergeAnswer, Fail> {
        let mut shelf = shelf_of(alloc, Some(0))?;
        let merged = merge_owned(alloc, &mut self.relay, &mut shelf);
        Ok(self.told(&merged))
    }

    fn told(&self, merged: &Result<Merged, StoreFault>) -> MergeAnswer {
        match merged {
            Ok(merged) => MergeAnswer::Merged {
                bundles: merged.bundles,
                stored: merged.stored,
                retained: self.relay.retained(),
            },
            Err(StoreFault::ShelfFault) => MergeAnswer::Failed,
            Err(_) => MergeAnswer::Other,
        }
    }

    /// Takes a block with these fields.
    pub fn take(&mut self, alloc: Global, fields: Whole) -> Result<TakeAnswer, Fail> {
        let block = block_of(alloc, fields)?;
        let taken = take_owned(
            alloc,
            &mut self.relay,
            &mut self.shelf,
            &self.node.name,
            &mut self.own,
            block,
            &self.node.kind,
        );
        Ok(answer_of(&taken))
    }

    /// Whether of the blocks those from this place on have their payloads, and no others.
    pub fn holds_from(&self, from: u64) -> bool {
        for place in 0..self.relay.len() {
            if self.relay.history().held(place as usize).is_some() != (from <= place) {
                return false;
            }
        }
        true
    }

    /// What the file of this name holds, or nothing where it is not there.
    pub fn text(&self, alloc: Global, name: &str) -> Result<&[u8], Fail> {
        let text = text_of(alloc, &self.shelf, name)?;
        Ok(text)
    }

    /// What is there of a block whose files have these names.
    pub fn left(&self, alloc: Global, names: Names) -> Result<Left, Fail> {
        let one = text_of(alloc, &self.shelf, names.one)?;
        let refused = text_of(alloc, &self.shelf, names.refused)?;
        Ok(Left {
            one: !one.is_empty(),
            refused: !refused.is_empty(),
            own: self.own.len(),
            conflicts: self.relay.conflicts().len(),
            blocks: self.relay.len(),
        })
    }
}

fn node_of(alloc: Global) -> Result<Node, Fail> {
    let name = ReaderName::new(alloc, b"r1")?.ok_or("no reader")?;
    let kind = kind(alloc)?;
    Ok(Node { name, kind })
}

fn relay_of(alloc: Global, wide: bool) -> Result<Relay, AllocError> {
    let mut relay = Relay::new(alloc, 0, 1, LIMITS)?;
    if wide {
        relay.set_size(1_000);
    }
    Ok(relay)
}

fn is_admitted(relay: &mut Relay, block: Arc<Block>) -> bool {
    let answer = relay.offer(block);
    matches!(&answer, Ok(Offered::Admitted { .. }))
}

fn answer_of(taken: &Result<Offered, TakeFault>) -> TakeAnswer {
    match taken {
        Ok(Offered::Admitted { .. }) => TakeAnswer::Admitted,
        Ok(Offered::Duplicate) => TakeAnswer::Duplicate,
        Err(TakeFault::Offer(OfferFault::Conflict(_))) => TakeAnswer::Contradicts,
        Err(TakeFault::Store(StoreFault::ShelfFault)) => TakeAnswer::Failed,
        _ => TakeAnswer::Other,
    }
}

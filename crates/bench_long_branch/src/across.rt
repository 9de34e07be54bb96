//! The batch from the end of the chain to the end of the branch.

ghost use Rattle.std.specs.Prelude.{◌≤◌, ◌<◌, ◌+◌, ◌^◌, length, IfOk};
ghost use Rattle.fork_db.specs.Batches.{WasGiven};
ghost use Rattle.chain_model.specs.Places.{PlaceFits};

use crate::blocks::id_of;
use crate::tally::Tally;
use anyhow::{Result, bail};
use block_record::BlockRef;
use chain_model::{Mode, Place, Step};
use fork_db::{Batch, ForkDb};
use link_rows::LinkCount;
use relay_look::{Look, Position, look};
use std::alloc::{AllocError, Global};
use step_cursor::{Cursor, Request};

/// What the batch has, and what it took.
#[derive(Clone, Copy)]
pub struct Measured {
    pub steps: u64,
    pub links: u64,
}

/// The batch that leads a client from the end of the chain of so many blocks to the head.
pub fn measure(alloc: Global, db: &ForkDb, count: u64) -> Result<Measured> {
    let request = Request {
        start: 0,
        stop: None,
        mode: Mode::Live,
        cursor: Some(end_of_chain(alloc, count)?),
    };
    let few = db.len() < 2_097_152;
    match look(db, 0, false, &request, &Position::Start) {
        Ok(Look::Batch(batch)) if few => {
            let mut links = Tally { links: 0 };
            let again = batch_across(db, &batch.place, &mut links)?;
            Ok(Measured {
                steps: db.step_count(&again),
                links: links.links,
            })
        }
        _ => bail!("there is no batch"),
    }
}

/// The cursor of a client that has received the whole chain, of which the first block is final.
fn end_of_chain(alloc: Global, count: u64) -> Result<Cursor> {
    let place = Place {
        end: Some(block_of(alloc, count)?),
        lib: Some(block_of(alloc, 1)?),
    };
    Ok(Cursor {
        step: Step::New,
        block: block_of(alloc, count)?,
        place,
        tail: None,
    })
}

/// The block of the chain with this number.
fn block_of(alloc: Global, num: u64) -> Result<BlockRef> {
    Ok(BlockRef {
        num,
        id: id_of(alloc, 'a', num)?,
    })
}

/// The batch from a place to the head, in a history of fewer than 2^21 blocks: it reads at most 86
/// links.
fn batch_across<C: LinkCount>(
    db: &ForkDb,
    place: &Place,
    links: &mut C,
) -> Result<Batch, AllocError>
    requires fits { PlaceFits db.now.history place.now.end place.now.lib }
    requires short { length db.now.history < 2 ^ 21 }
    ensures given { IfOk result (WasGiven db.now.history) }
    ensures links { C.count links.new ≤ C.count links.old + 86 }
{
    db.batch(place, Mode::Live, None, links)
}

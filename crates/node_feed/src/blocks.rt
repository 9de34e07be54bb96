//! Blocks of a reader, one after another.

ghost use Rattle.std.specs.Prelude.{◌≤◌, map};
ghost use Rattle.block_record.specs.Slips.{slip};
ghost use Rattle.block_relay.specs.Chronicle.{world_told};
ghost use Rattle.block_reader.specs.Changes.{shelved};
ghost use Rattle.block_reader.specs.Kept.{AreOwn, KeepsTold};
ghost use Rattle.own_laws.specs.Away.{TakesAway};
ghost use Rattle.node_feed.specs.Growing.{IsGrown};
ghost use Rattle.node_feed.specs.Outcomes.{SlipsAnswer, outside};

use crate::single::feed_block;
use block_reader::OwnFiles;
use block_record::{Block, Kind, ReaderName};
use block_relay::Relay;
use one_block::StoreFault;
use outer_world::Shelf;
use std::alloc::Global;

/// Takes blocks into the relay one after another, up to the first that is refused, and tells what became
/// of each. Answers whether one was refused, so that their reader is over.
pub(crate) fn feed_blocks<S: Shelf>(
    alloc: Global,
    relay: &mut Relay,
    shelf: &mut S,
    name: &ReaderName,
    own: &mut OwnFiles,
    kind: &Kind,
    blocks: &mut Vec<Block>,
    out: &mut Vec<u8>,
) -> Result<bool, StoreFault>
    requires own { AreOwn (S.files shelf.old) own.old }
    ensures answer { SlipsAnswer name.now kind.now (map slip blocks.old.items)
        (outside relay.old (S.files shelf.old) own.old (S.shelf_faults shelf.old) out.old.items)
        (outside relay.new (S.files shelf.new) own.new (S.shelf_faults shelf.new) out.new.items)
        result }
    ensures grows { IsGrown relay.old relay.new }
    ensures own { AreOwn (S.files shelf.new) own.new }
    ensures away { TakesAway name.now (shelved (S.files shelf.old) own.old)
        (shelved (S.files shelf.new) own.new) }
    ensures kept { KeepsTold (S.files shelf.old) (world_told relay.old)
        → KeepsTold (S.files shelf.new) (world_told relay.new) }
    ensures later { S.shelf_faults shelf.old ≤ S.shelf_faults shelf.new }
{
    for block in blocks.drain(..) {
        if feed_block(alloc, relay, shelf, name, own, block, kind, out)? {
            return Ok(true);
        }
    }
    Ok(false)
}

//! What a reader's node says of itself.

ghost use Rattle.std.specs.Prelude.{◌≤◌, Option, map};
ghost use Rattle.std.specs.Option.{option_copied};
ghost use Rattle.block_record.specs.Slips.{slip};
ghost use Rattle.block_relay.specs.Chronicle.{world_told};
ghost use Rattle.block_reader.specs.Changes.{shelved};
ghost use Rattle.block_reader.specs.Kept.{AreOwn, KeepsTold};
ghost use Rattle.own_laws.specs.Away.{TakesAway};
ghost use Rattle.outer_world.specs.Files.{Files};
ghost use Rattle.node_feed.specs.Growing.{IsGrown};
ghost use Rattle.node_feed.specs.Outcomes.{GreetAnswers, KindAnswers, outside};

use crate::blocks::feed_blocks;
use block_reader::OwnFiles;
use block_record::{Block, Kind, ReaderName};
use block_relay::{KindFault, Relay};
use one_block::StoreFault;
use outer_world::Shelf;
use replay_text::push_kind_fault;
use std::alloc::Global;

/// Takes the blocks of a run into the relay, which is told the run's kind first. Answers whether the
/// reader is over.
pub(crate) fn feed_run<S: Shelf>(
    alloc: Global,
    relay: &mut Relay,
    shelf: &mut S,
    name: &ReaderName,
    own: &mut OwnFiles,
    kind: Option<&Kind>,
    blocks: &mut Vec<Block>,
    out: &mut Vec<u8>,
) -> Result<bool, StoreFault>
    requires own { AreOwn (S.files shelf.old) own.old }
    ensures answer { KindAnswers name.now (option_copied kind.entry) (map slip blocks.old.items)
        (outside relay.old (S.files shelf.old) own.old (S.shelf_faults shelf.old) out.old.items)
        (outside relay.new (S.files shelf.new) own.new (S.shelf_faults shelf.new) out.new.items)
        result }
    ensures grows { IsGrown relay.old relay.new }
    ensures own { AreOwn (S.files shelf.new) own.new }
    ensures away { TakesAway name.now (shelved (S.files shelf.old) own.old)
        (shelved (S.files shelf.new) own.new) }
    ensures kept { KeepsTold (S.files shelf.old) (world_told relay.old)
        → KeepsTold (S.files shelf.new) (world_told relay.new) }
    ensures later { S.shelf_faults shelf.old ≤ S.shelf_faults shelf.new }
{
    // Before its opening line a run has no block.
    let Some(kind) = kind else {
        return Ok(false);
    };
    // A relay that was told this kind before changes nothing, so it is told at each piece.
    if greet(relay, name, kind, out)? {
        return Ok(true);
    }
    feed_blocks(alloc, relay, shelf, name, own, kind, blocks, out)
}

/// Tells the relay the kind of the reader's node. Answers whether it keeps another type of blocks, so that
/// the reader is over.
fn greet(
    relay: &mut Relay,
    name: &ReaderName,
    kind: &Kind,
    out: &mut Vec<u8>,
) -> Result<bool, StoreFault>
    ensures answer { GreetAnswers name.now kind.now relay.old relay.new
        out.old.items out.new.items result }
    ensures grows { IsGrown relay.old relay.new }
    ensures kept { (files : Option Files) → KeepsTold files (world_told relay.old)
        → KeepsTold files (world_told relay.new) }
{
    match relay.hello(kind) {
        Ok(()) => Ok(false),
        Err(KindFault::KindClash { held, offered }) => {
            let clash = KindFault::KindClash { held, offered };
            push_kind_fault(name.as_bytes(), &clash, out)?;
            Ok(true)
        }
        Err(KindFault::Mem) => Err(StoreFault::Mem),
    }
}

//! One block of a reader.

ghost use Rattle.std.specs.Prelude.{◌≡◌, ◌≤◌, IfOk};
ghost use Rattle.block_record.specs.Slips.{slip};
ghost use Rattle.block_relay.specs.Chronicle.{world_told};
ghost use Rattle.block_reader.specs.Changes.{shelved};
ghost use Rattle.block_reader.specs.Kept.{AreOwn, KeepsTold};
ghost use Rattle.own_laws.specs.Away.{TakesAway};
ghost use Rattle.node_feed.specs.Feeding.{ends_reader};
ghost use Rattle.node_feed.specs.Growing.{IsGrown};
ghost use Rattle.node_feed.specs.Outcomes.{SlipAnswers, outside};

use block_reader::{OwnFiles, TakeFault, take_owned};
use block_record::{Block, Id, Kind, ReaderName};
use block_relay::{OfferFault, Offered, Relay};
use one_block::StoreFault;
use outer_world::Shelf;
use replay_text::{answers_are_told, push_taken};
use std::alloc::{AllocError, Global};

/// Takes a block into the relay, and tells what became of it. Answers whether it was refused, so that its
/// reader is over.
pub(crate) fn feed_block<S: Shelf>(
    alloc: Global,
    relay: &mut Relay,
    shelf: &mut S,
    name: &ReaderName,
    own: &mut OwnFiles,
    block: Block,
    kind: &Kind,
    out: &mut Vec<u8>,
) -> Result<bool, StoreFault>
    requires own { AreOwn (S.files shelf.old) own.old }
    ensures answer { SlipAnswers name.now kind.now (slip block)
        (outside relay.old (S.files shelf.old) own.old (S.shelf_faults shelf.old) out.old.items)
        (outside relay.new (S.files shelf.new) own.new (S.shelf_faults shelf.new) out.new.items)
        result }
    ensures grows { IsGrown relay.old relay.new }
    ensures own { AreOwn (S.files shelf.new) own.new }
    ensures away { TakesAway name.now (shelved (S.files shelf.old) own.old)
        (shelved (S.files shelf.new) own.new) }
    ensures kept { KeepsTold (S.files shelf.old) (world_told relay.old)
        → KeepsTold (S.files shelf.new) (world_told relay.new) }
    ensures later { S.shelf_faults shelf.old ≤ S.shelf_faults shelf.new }
{
    answers_are_told();
    let num = block.num;
    let id = copy_id(&block.id)?;
    let answer = take_owned(alloc, relay, shelf, name, own, block, kind);
    push_taken(name.as_bytes(), num, &id, &answer, out)?;
    refuses_reader(answer)
}

fn copy_id(id: &Id) -> Result<Id, AllocError>
    ensures { IfOk result (λ copy. copy ≡ id.now) }
{
    let copy = id.clone()?;
    Ok(copy)
}

/// Whether the answer to a block refuses its reader. A refusal of the shelf itself, and want of memory,
/// are refusals.
fn refuses_reader(answer: Result<Offered, TakeFault>) -> Result<bool, StoreFault>
    ensures { result ≡ ends_reader answer }
{
    match answer {
        Ok(_) => Ok(false),
        Err(TakeFault::Offer(OfferFault::Mem)) => Err(StoreFault::Mem),
        Err(TakeFault::Offer(_)) => Ok(true),
        Err(TakeFault::Store(StoreFault::NameClash { .. })) => Ok(true),
        Err(TakeFault::Store(fault)) => Err(fault),
    }
}

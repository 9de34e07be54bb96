//! What is done once all blocks of a shelf were taken.

ghost use Rattle.std.specs.Prelude.{◌≡◌, IfOk, map, reverse};
ghost use Rattle.block_record.specs.Slips.{slip as slip_of_block};
ghost use Rattle.block_intake.specs.Answers.{IsAnswer, is_mem};
ghost use Rattle.block_relay.specs.Chronicle.{world_told};
ghost use Rattle.bundle_model.specs.Shedding.{stored_after};
ghost use Rattle.relay_model.specs.Offers.{Answer};
ghost use Rattle.shelf_load.specs.Asides.{put_seen};
ghost use Rattle.shelf_load.specs.Ending.{AgainAnswers, FullAnswers, RoundAnswers, is_noted as noted_in, lost_by, lost_count};

use crate::put_by::PutBy;
use block_record::{Block, Slip, SlipRef};
use block_relay::{Conflict, OfferFault, Offered, Relay};
use one_block::StoreFault;
use relay_look::tip_number;
use shelf_check::LoadFault;
use std::sync::Arc;

/// Offers the blocks that were put by and have numbers above the final tip's, until one finds the
/// waiting room full.
pub(crate) fn offer_put_by(relay: &mut Relay, put_by: &[PutBy]) -> Result<(), LoadFault>
    ensures { RoundAnswers (world_told relay.old) (reverse (map put_seen put_by.now))
        (world_told relay.new) result }
{
    for entry in put_by {
        if offer_again(relay, entry)? {
            return Ok(());
        }
    }
    Ok(())
}

/// Offers a block that was put by, where its number is above the final tip's, and tells whether the
/// waiting room was full.
fn offer_again(relay: &mut Relay, entry: &PutBy) -> Result<bool, LoadFault>
    ensures { AgainAnswers (world_told relay.old) (put_seen entry.now)
        (world_told relay.new) result }
{
    if entry.slip.num <= tip_number(relay.history()) {
        return Ok(false);
    }
    match &entry.block {
        Some(block) => {
            let block = block.clone()?;
            find_full(relay.offer(block))
        }
        None => Ok(false),
    }
}

/// Whether an answer is that the waiting room is full. That the history is full, and want of memory, are
/// refusals.
fn find_full(answer: Result<Offered, OfferFault>) -> Result<bool, LoadFault>
    ensures { (said : Answer) → IsAnswer said answer
        → FullAnswers said (is_mem answer) result }
{
    match answer {
        Err(OfferFault::WaitFull { .. }) => Ok(true),
        Ok(Offered::Admitted { .. }) | Ok(Offered::Duplicate) | Ok(Offered::Waiting) => Ok(false),
        Ok(Offered::Early) | Ok(Offered::Stale) => Ok(false),
        Err(OfferFault::Conflict(_)) => Ok(false),
        Err(OfferFault::Closed { .. }) => Ok(false),
        Err(OfferFault::HistoryFull { len, need }) => Err(LoadFault::HistoryFull { len, need }),
        Err(OfferFault::Mem) => Err(LoadFault::Store(StoreFault::Mem)),
    }
}

/// Counts those of these blocks as stored that are in the history.
pub(crate) fn store_late(relay: &mut Relay, late: &[Slip])
    ensures { world_told relay.new ≡ record (world_told relay.old) {
      stored = stored_after (world_told relay.old).history (world_told relay.old).stored late.now;
    } }
{
    for slip in late {
        relay.store(SlipRef::of_slip(slip));
    }
}

/// How many of the blocks that were put by are neither held nor noted in a conflict.
pub(crate) fn count_lost(relay: &Relay, put_by: &[PutBy]) -> u64
    ensures { result ≡ lost_count (world_told relay.now) (map put_seen put_by.now) }
{
    let mut count = 0;
    for entry in put_by {
        count += lost_one(relay, entry);
    }
    count
}

/// One for a block that is neither held nor noted in a conflict.
fn lost_one(relay: &Relay, entry: &PutBy) -> u64
    ensures { result ≡ lost_by (world_told relay.now) entry.now.slip }
{
    if relay.holds(SlipRef::of_slip(&entry.slip)) || is_noted(relay, &entry.slip) {
        0
    } else {
        1
    }
}

/// Whether a noted conflict has this offered block.
fn is_noted(relay: &Relay, slip: &Slip) -> bool
    ensures { result ≡ noted_in (world_told relay.now).conflicts slip.now }
{
    has_offered(relay.conflicts(), slip)
}

/// Whether a conflict has this offered block.
fn has_offered(conflicts: &[Conflict], slip: &Slip) -> bool
    ensures { result ≡ noted_in conflicts.now slip.now }
{
    conflicts.iter().any(|conflict| conflict.offered == *slip)
}

//! The blocks of a shelf, taken one after another.

ghost use Rattle.std.specs.Prelude.{◌≡◌, IfOk, OnOk};
ghost use Rattle.block_record.specs.Slips.{slip as slip_of_block};
ghost use Rattle.block_intake.specs.Answers.{IsAnswer, is_mem};
ghost use Rattle.block_relay.specs.Chronicle.{world_told};
ghost use Rattle.relay_model.specs.Offers.{Answer};
ghost use Rattle.relay_model.specs.Soundness.{IsBlock};
ghost use Rattle.store_model.specs.Loads.{is_offered as may_offer};
ghost use Rattle.shelf_load.specs.Taking.{CountAnswers, OfferAnswers, TakeAnswers, after_put_by, is_in_history as is_there, marked, stage, taken};

use crate::left_out::LeftOut;
use crate::put_by::Origin;
use block_record::{Block, Slip, SlipRef, copy_slip, slip_of};
use block_relay::{OfferFault, Offered, Relay};
use one_block::StoreFault;
use relay_look::tip_number;
use shelf_check::LoadFault;
use std::alloc::{AllocError, Global};
use std::sync::Arc;

/// Takes a block: it is offered where the history is empty or has its parent, and else put by. Where it
/// counts as stored, it is so at once if it is in the history.
pub(crate) fn take_block(
    alloc: Global,
    relay: &mut Relay,
    left: &mut LeftOut,
    origin: Origin,
    block: Block,
) -> Result<(), LoadFault>
    ensures { TakeAnswers (stage (world_told relay.old) left.old)
        (stage (world_told relay.new) left.new)
        (taken (slip_of_block block) origin) result }
{
    let slip = slip_of(alloc, &block)?;
    let block = share(alloc, block)?;
    if is_offered(relay, &slip) {
        let passed = offer_block(relay, block)?;
        left.count_passed(passed);
    } else {
        put_by(relay, left, &slip, block)?;
    }
    match origin {
        Origin::OwnFile => Ok(()),
        Origin::StoredFile => {
            store_block(relay, left, slip)?;
            Ok(())
        }
    }
}

/// A holder of a block.
fn share(alloc: Global, block: Block) -> Result<Arc<Block>, AllocError>
    ensures { IfOk result (λ shared. shared.value ≡ block) }
{
    match Arc::new(alloc, block) {
        Ok(shared) => Ok(shared),
        Err(_) => Err(AllocError),
    }
}

/// Whether a block is offered at once.
fn is_offered(relay: &Relay, slip: &Slip) -> bool
    ensures { result ≡ may_offer (world_told relay.now).history slip.now }
{
    relay.len() == 0 || relay.history().find_slip(&slip.parent_id).is_some()
}

/// Offers a block, and counts it where it was `Early` or `Stale`.
fn offer_block(relay: &mut Relay, block: Arc<Block>) -> Result<u64, LoadFault>
    ensures { OfferAnswers (world_told relay.old) (world_told relay.new)
        (slip_of_block block.value) result }
{
    count_answer(relay.offer(block))
}

/// How many blocks an answer counts as `Early` or `Stale`. That the history is full, and want of memory,
/// are refusals.
fn count_answer(answer: Result<Offered, OfferFault>) -> Result<u64, LoadFault>
    ensures { (said : Answer) → IsAnswer said answer
        → CountAnswers said (is_mem answer) result }
{
    match answer {
        Ok(Offered::Early) | Ok(Offered::Stale) => Ok(1),
        Ok(Offered::Admitted { .. }) | Ok(Offered::Duplicate) | Ok(Offered::Waiting) => Ok(0),
        Err(OfferFault::Conflict(_)) => Ok(0),
        Err(OfferFault::Closed { .. }) | Err(OfferFault::WaitFull { .. }) => Ok(0),
        Err(OfferFault::HistoryFull { len, need }) => Err(LoadFault::HistoryFull { len, need }),
        Err(OfferFault::Mem) => Err(LoadFault::Store(StoreFault::Mem)),
    }
}

/// Puts a block by, with its payload where its number is above the final tip's.
fn put_by(
    relay: &Relay,
    left: &mut LeftOut,
    slip: &Slip,
    block: Arc<Block>,
) -> Result<(), AllocError>
    requires own { slip.now ≡ slip_of_block block.value }
    requires fits { IsBlock slip.now }
    ensures { OnOk result (stage (world_told relay.now) left.new
        ≡ after_put_by (stage (world_told relay.now) left.old) slip.now) }
{
    let slip = copy_slip(slip)?;
    if tip_number(relay.history()) < slip.num {
        left.add_put_by(slip, Some(block))?;
    } else {
        left.add_put_by(slip, None)?;
    }
    Ok(())
}

/// Counts a block as stored, where it is in the history, and remembers it where it is not.
fn store_block(relay: &mut Relay, left: &mut LeftOut, slip: Slip) -> Result<(), AllocError>
    ensures { OnOk result (stage (world_told relay.new) left.new
        ≡ marked (stage (world_told relay.old) left.old) slip) }
{
    relay.store(SlipRef::of_slip(&slip));
    if !is_in_history(relay, &slip) {
        left.add_late(slip)?;
    }
    Ok(())
}

/// Whether a block is in the history.
fn is_in_history(relay: &Relay, slip: &Slip) -> bool
    ensures { result ≡ is_there (world_told relay.now).history slip.now }
{
    match relay.history().find_slip(&slip.id) {
        Some(held) => held == slip,
        None => false,
    }
}

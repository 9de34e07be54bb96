//! The next steps of an open batch, with their blocks.

ghost use Rattle.std.specs.Prelude.{◌≡◌, ◌≤◌, ◌<◌, List, [], length, map, false, true, OnOk, OnErr, IfOk, IfErr};
ghost use Rattle.std.specs.List.{AllByRecursion};
ghost use Rattle.block_record.specs.declared.blocks.Slip.{Slip as SlipOf};
ghost use Rattle.block_relay.specs.Chronicle.{world_told};
ghost use Rattle.fork_db.specs.Batches.{HasOwnBlock};
ghost use Rattle.join_source.specs.Items.{left_of};
ghost use Rattle.client_stream.specs.Sessions.{IsSendingAt};
ghost use Rattle.relay_session.specs.Sending.{AreNext, GaveSome, GaveUpTo, IsStopped, MayBeGiven};
ghost use Rattle.relay_session.specs.Serving.{IsServed};
ghost use Rattle.relay_session.specs.Turns.{HasCause};

use crate::know::know_sound;
use block_relay::Relay;
use client_stream::Session;
use fork_db::StepItem;
use join_source::Joined;
use one_block::StoreFault;
use outer_world::Shelf;
use std::alloc::{AllocError, Global};

/// The next steps of the open batch, at least one and at most `max`.
pub fn next_items(
    alloc: Global,
    relay: &Relay,
    session: &Session,
    from: u64,
    max: u32,
) -> Result<Vec<StepItem>, AllocError>
    requires served { IsServed relay.now session.now }
    requires next { IsSendingAt session.now.progress.stage session.now.batch from }
    requires some { 1 ≤ max }
    ensures next { IfOk result (λ items. AreNext (world_told relay.now).history session.now
        (map left_of items.items)) }
    ensures own { IfOk result (λ items. AllByRecursion HasOwnBlock items.items) }
    ensures some { IfOk result (λ items. 1 ≤ length items.items) }
    ensures few { IfOk result (λ items. length items.items ≤ max) }
{
    know_sound(relay);
    let batch = session.batch().unwrap();
    let mut items = Vec::new(alloc);
    relay.chunk(batch, from, max, &mut items)?;
    Ok(items)
}

/// Gives a session these items, with their blocks.
pub fn send_items<S: Shelf>(
    session: &mut Session,
    joined: &mut Joined,
    shelf: &mut S,
    out: &mut Vec<u8>,
) -> Result<(), StoreFault>
    requires { MayBeGiven session.old joined.old }
    ensures gave { (newest : List SlipOf) → AreNext newest session.old joined.old
        → GaveSome newest (length joined.old) session.old session.new
        out.old.items out.new.items }
    ensures all { OnOk result ((newest : List SlipOf) → AreNext newest session.old joined.old
        → GaveUpTo newest session.old session.new joined.old [] out.old.items out.new.items) }
    ensures refused { IfErr result (λ fault. (newest : List SlipOf)
        → AreNext newest session.old joined.old
        → HasCause newest (S.files shelf.old) (S.shelf_faults shelf.old)
        (S.shelf_faults shelf.new) session.new.progress fault) }
    ensures files { S.files shelf.new ≡ S.files shelf.old }
    ensures staged { S.staged shelf.new ≡ S.staged shelf.old }
    ensures later { S.shelf_faults shelf.old ≤ S.shelf_faults shelf.new }
{
    while send_item(session, joined, shelf, out)? {}
    Ok(())
}

/// Gives a session the next of these items, with its block. False where there is none.
fn send_item<S: Shelf>(
    session: &mut Session,
    joined: &mut Joined,
    shelf: &mut S,
    out: &mut Vec<u8>,
) -> Result<bool, StoreFault>
    requires { MayBeGiven session.old joined.old }
    ensures gave { OnOk result ((newest : List SlipOf) → AreNext newest session.old joined.old
        → GaveUpTo newest session.old session.new joined.old joined.new
        out.old.items out.new.items) }
    ensures last { IfOk result (λ more. more ≡ false → joined.new ≡ []) }
    ensures less { IfOk result (λ more. more ≡ true → length joined.new < length joined.old) }
    ensures same { OnErr result (session.new ≡ session.old) }
    ensures err { OnErr result (out.new.items ≡ out.old.items) }
    ensures refused { IfErr result (IsStopped (S.files shelf.old) joined.old
        (S.shelf_faults shelf.old) (S.shelf_faults shelf.new)) }
    ensures files { S.files shelf.new ≡ S.files shelf.old }
    ensures staged { S.staged shelf.new ≡ S.staged shelf.old }
    ensures later { S.shelf_faults shelf.old ≤ S.shelf_faults shelf.new }
{
    let Some(step) = joined.next(shelf)? else {
        return Ok(false);
    };
    session.give_step(&step, out)?;
    Ok(true)
}

//! Looks.

ghost use Rattle.std.specs.Prelude.{◌≡◌, ◌<◌, IfOk, List, None, Ok, length, true, false};
ghost use Rattle.block_record.specs.declared.blocks.Slip.{Slip as SlipOf};
ghost use Rattle.chain_model.specs.Steps.{BlockStep};
ghost use Rattle.step_cursor.specs.declared.cursor.Request.{Request as RequestOf};
ghost use Rattle.chain_model.specs.Places.{PlaceFits};
ghost use Rattle.relay_model.specs.Looks.{is_final_by as is_final_by_in, look_cursor as look_cursor_in, look_from as look_from_in, look_idle, look_known as look_known_in, look_open as look_open_in, look_start as look_start_in, looked, unknown as unknown_in};
ghost use Rattle.relay_model.specs.Worlds.{World};
ghost use Rattle.fork_db.specs.Batches.{IsGiven};
ghost use Rattle.relay_look.specs.Answers.{FitsAt, HasBatchOf, HasFewSteps, IsLook, LooksAt, Shows, idle_or_done, position_of, sends, stop_passed as stop_passed_in};

use crate::answers::{Look, LookFault, Position};
use crate::cursors::{is_ahead, misfit, unknown};
use crate::paths::tip_number;
use block_record::BlockRef;
use chain_model::{Mode, Place};
use fork_db::{Batch, ForkDb};
use link_rows::Uncounted;
use std::alloc::AllocError;
use step_cursor::{Cursor, Request};

/// What a client gets next that stands at the position, from a history of this run, to which blocks
/// come until it is closed.
pub fn look(
    db: &ForkDb,
    run: u64,
    is_closed: bool,
    request: &Request,
    position: &Position,
) -> Result<Look, LookFault>
    requires { FitsAt db.now.history position.now }
    ensures said { (w : World) → LooksAt w db.now.history run is_closed
        → IsLook (looked w request.now (position_of position.now)) result }
    ensures given { HasBatchOf db.now.history request.now result }
    ensures few { HasFewSteps result }
{
    match position {
        Position::Start => look_start(db, run, is_closed, request),
        Position::At(place) => look_from(db, is_closed, request, place, false),
    }
}

/// The answer at the start.
fn look_start(db: &ForkDb, run: u64, is_closed: bool, request: &Request) -> Result<Look, LookFault>
    ensures said { (w : World) → LooksAt w db.now.history run is_closed
        → IsLook (look_start_in w request.now request.now.cursor) result }
    ensures given { HasBatchOf db.now.history request.now result }
    ensures few { HasFewSteps result }
{
    match &request.cursor {
        Some(cursor) => look_cursor(db, run, is_closed, request, cursor),
        None => look_open(db, is_closed, request),
    }
}

/// The answer at the start without a cursor.
fn look_open(db: &ForkDb, is_closed: bool, request: &Request) -> Result<Look, LookFault>
    ensures said { (w : World) → Shows w db.now.history is_closed
        → IsLook (look_open_in w request.now w.history) result }
    ensures given { HasBatchOf db.now.history request.now result }
    ensures few { HasFewSteps result }
{
    let len = db.len();
    if len == 0 {
        return Ok(idle(len, is_closed));
    }
    let place = db.opening(request.start)?;
    look_from(db, is_closed, request, &place, true)
}

/// The answer to a cursor.
fn look_cursor(
    db: &ForkDb,
    run: u64,
    is_closed: bool,
    request: &Request,
    cursor: &Cursor,
) -> Result<Look, LookFault>
    ensures said { (w : World) → LooksAt w db.now.history run is_closed
        → IsLook (look_cursor_in w request.now cursor.now) result }
    ensures given { HasBatchOf db.now.history request.now result }
    ensures few { HasFewSteps result }
{
    let len = db.len();
    if is_ahead(run, len, &cursor.tail) && !is_closed {
        return Ok(Look::NotYet { len });
    }
    look_known(db, run, is_closed, request, cursor)
}

/// The answer to a cursor that saw no more of this run than there is.
fn look_known(
    db: &ForkDb,
    run: u64,
    is_closed: bool,
    request: &Request,
    cursor: &Cursor,
) -> Result<Look, LookFault>
    ensures said { (w : World) → LooksAt w db.now.history run is_closed
        → IsLook (look_known_in w request.now cursor.now (unknown_in w.history cursor.now)) result }
    ensures given { HasBatchOf db.now.history request.now result }
    ensures few { HasFewSteps result }
{
    if let Some(id) = unknown(db, cursor) {
        let id = id.clone()?;
        return Err(LookFault::Unknown { id });
    }
    match misfit(db, run, cursor) {
        Some(field) => Err(LookFault::Misfit { field }),
        None => look_from(db, is_closed, request, &cursor.place, true),
    }
}

/// The answer from a place that fits. At the start a batch may have no steps.
fn look_from(
    db: &ForkDb,
    is_closed: bool,
    request: &Request,
    place: &Place,
    is_first: bool,
) -> Result<Look, LookFault>
    requires { PlaceFits db.now.history place.now.end place.now.lib }
    ensures said { (w : World) → Shows w db.now.history is_closed
        → IsLook (look_from_in is_first w request.now place.now) result }
    ensures given { HasBatchOf db.now.history request.now result }
    ensures few { HasFewSteps result }
{
    let len = db.len();
    if let Some(end) = stop_passed(request.stop, &place.end) {
        return Err(LookFault::StopBelow { end });
    }
    let batch = batch_at(db, place, request.mode, request.stop)?;
    if is_sent(is_first, db.step_count(&batch)) {
        return Ok(Look::Batch(batch));
    }
    Ok(without_steps(db, len, is_closed, request.stop))
}

/// Whether a batch with so many steps is an answer.
fn is_sent(is_first: bool, count: u64) -> bool
    ensures { (steps : List BlockStep) → count ≡ length steps → result ≡ sends is_first steps }
{
    is_first || count > 0
}

/// The number of the end, where the stop is below it.
fn stop_passed(stop: Option<u64>, end: &Option<BlockRef>) -> Option<u64>
    ensures { result ≡ stop_passed_in stop end.now }
{
    match (stop, end) {
        (Some(stop), Some(end)) if stop < end.num => Some(end.num),
        _ => None,
    }
}

/// The steps from a place, with no count of links.
fn batch_at(db: &ForkDb, place: &Place, mode: Mode, stop: Option<u64>) -> Result<Batch, AllocError>
    requires fits { PlaceFits db.now.history place.now.end place.now.lib }
    requires ahead { stop_passed_in stop place.now.end ≡ None }
    ensures given { IfOk result (λ b. IsGiven db.now.history db.now.history mode stop b) }
    ensures place { IfOk result (λ b. b.place ≡ place.now) }
{
    let batch = db.batch(place, mode, stop, &mut Uncounted)?;
    Ok(batch)
}

/// The answer where there are no steps.
fn without_steps(db: &ForkDb, len: u64, is_closed: bool, stop: Option<u64>) -> Look
    requires { len ≡ length db.now.history }
    ensures said { (w : World) → Shows w db.now.history is_closed
        → IsLook (idle_or_done w stop) (Ok result) }
    ensures given { (r : RequestOf) → HasBatchOf db.now.history r (Ok result) }
    ensures few { HasFewSteps (Ok result) }
{
    if is_final_by(db, stop) {
        Look::Done { len }
    } else {
        idle(len, is_closed)
    }
}

/// Whether there is a stop that the final tip has reached.
fn is_final_by(db: &ForkDb, stop: Option<u64>) -> bool
    ensures { result ≡ is_final_by_in db.now.history stop }
{
    match stop {
        Some(stop) => stop <= tip_number(db),
        None => false,
    }
}

/// Nothing can be sent: for good where no block will come, else for now.
fn idle(len: u64, is_closed: bool) -> Look
    ensures said { (w : World) → len ≡ length w.history → w.closed ≡ is_closed
        → IsLook (look_idle w) (Ok result) }
    ensures given { (newest : List SlipOf) (r : RequestOf) → HasBatchOf newest r (Ok result) }
    ensures few { HasFewSteps (Ok result) }
{
    if is_closed {
        Look::Closing { len }
    } else {
        Look::NotYet { len }
    }
}

//! Which rule decides an offer.

ghost use Rattle.std.specs.Prelude.{◌≡◌, ◌<◌, ◌++◌, length, IfErr, IfOk, List, None, Some, false};
ghost use Rattle.std.specs.Option.{option_copied};
ghost use Rattle.block_record.specs.SlipRefs.{slip_seen};
ghost use Rattle.fork_db.specs.Claims.{IsLinkOf};
ghost use Rattle.chain_model.specs.Ancestry.{find_id, has_id};
ghost use Rattle.chain_model.specs.Finality.{final_tip, root_num};
ghost use Rattle.relay_model.specs.Offers.{clash, judge_clash, judge_held, judge_linked as judge_linked_in, judge_parent};
ghost use Rattle.block_tree.specs.Places.{place_of, slip_at};
ghost use Rattle.relay_model.specs.Soundness.{IsBlock};
ghost use Rattle.relay_model.specs.Worlds.{World};
ghost use Rattle.block_record.specs.declared.blocks.Slip.{Slip as SlipOf};
ghost use Rattle.block_intake.specs.Judged.{HasParts, IsLinked, clash_of, verdict_of_judged};

use block_record::{Id, Slip, SlipRef};
use fork_db::{ChildFault, ForkDb, Linked};
use relay_look::tip_number;
use relay_model::ConflictKind;
use wait_room::WaitRoom;

/// The rule that decides an offer, the first that applies, by the answer that it gives. Whether a
/// block that links is admitted is up to the limit of the history.
#[derive(Clone, Copy, Debug)]
pub enum Judged<'a> {
    /// The same block is held.
    Duplicate,
    /// It contradicts this block, which is held.
    Conflict(ConflictKind, &'a Slip),
    /// Its number is below the first one.
    Early,
    /// It is not above the root, or not above the final tip and without a held parent.
    Stale,
    /// It would have to wait, and passes a limit of the room.
    WaitFull,
    /// It has to wait for its parent.
    Waiting,
    /// It contradicts nothing, and is linked there.
    Links { linked: Linked },
}

/// Where a block is linked to a history that has its parent at a place and not itself, or how the
/// block contradicts the history, and which of its blocks.
pub fn link_child(
    db: &ForkDb,
    parent: usize,
    slip: SlipRef,
) -> Result<Linked, (ConflictKind, usize)>
    requires fresh { has_id db.now.history (slip_seen slip).id ≡ false }
    requires parent { place_of db.now.history (slip_seen slip).parent_id ≡ Some parent }
    requires rises { (slip_seen slip).parent_num < (slip_seen slip).num }
    ensures clash { clash_of db.now.history (slip_seen slip.entry) result
        ≡ clash db.now.history (slip_seen slip.entry) }
    ensures range { IfErr result (λ p. p.1 < length db.now.history) }
    ensures linked { IfOk result (IsLinkOf db.now.history (slip_seen slip.entry)) }
{
    match db.can_append_on(parent, slip) {
        Ok(linked) => Ok(linked),
        Err(ChildFault::ParentNumber) => Err((ConflictKind::Parent, parent)),
        Err(ChildFault::Disagrees) => Err((ConflictKind::Finality, tip_place(db))),
    }
}

/// The place of the final tip of a history that has blocks.
fn tip_place(db: &ForkDb) -> usize
    requires { 0 < length db.now.history }
    ensures tip { slip_at db.now.history result ≡ final_tip db.now.history }
    ensures range { result < length db.now.history }
{
    let _ = db.len();
    db.final_tip().unwrap()
}

/// The rule for a block whose parent is not held.
fn judge_orphan<'a>(db: &'a ForkDb, room: &WaitRoom, slip: SlipRef) -> Judged<'a>
    ensures rule { (w : World) → HasParts w db.now room.now
        → verdict_of_judged w (slip_seen slip.entry) result
        ≡ judge_parent w (slip_seen slip.entry) None }
    ensures linked { IsLinked db.now.history (slip_seen slip.entry) result }
{
    if slip.num <= tip_number(db) {
        return Judged::Stale;
    }
    if room.fits(u64::from(slip.length)) {
        Judged::Waiting
    } else {
        Judged::WaitFull
    }
}

/// The rule for a block whose parent is held at a place.
fn judge_new_child<'a>(db: &'a ForkDb, parent: usize, slip: SlipRef) -> Judged<'a>
    requires fresh { has_id db.now.history (slip_seen slip).id ≡ false }
    requires parent { place_of db.now.history (slip_seen slip).parent_id ≡ Some parent }
    requires rises { (slip_seen slip).parent_num < (slip_seen slip).num }
    ensures rule { (w : World) → w.history ≡ db.now.history
        → verdict_of_judged w (slip_seen slip.entry) result
        ≡ judge_clash w (slip_seen slip.entry) (clash w.history (slip_seen slip.entry)) }
    ensures linked { IsLinked db.now.history (slip_seen slip.entry) result }
{
    match link_child(db, parent, slip) {
        Ok(linked) => Judged::Links { linked },
        Err((kind, held)) => Judged::Conflict(kind, db.slip(held)),
    }
}

/// The rule for a block that is not held and not below the first number.
fn judge_linked<'a>(db: &'a ForkDb, room: &WaitRoom, slip: SlipRef) -> Judged<'a>
    requires fresh { has_id db.now.history (slip_seen slip).id ≡ false }
    requires block { IsBlock (slip_seen slip) }
    ensures rule { (w : World) → HasParts w db.now room.now
        → verdict_of_judged w (slip_seen slip.entry) result
        ≡ judge_linked_in w (slip_seen slip.entry) w.history }
    ensures linked { IsLinked db.now.history (slip_seen slip.entry) result }
{
    if db.len() == 0 {
        return Judged::Links {
            linked: Linked {
                parent: None,
                claim: None,
            },
        };
    }
    if slip.num <= db.slip(0).num {
        return Judged::Stale;
    }
    match db.find(slip.parent_id) {
        Some(parent) => judge_new_child(db, parent, slip),
        None => judge_orphan(db, room, slip),
    }
}

/// The block of an id that waits or is in the history.
fn held_slip<'a>(db: &'a ForkDb, room: &'a WaitRoom, id: &Id) -> Option<&'a Slip>
    ensures { option_copied result ≡ find_id (room.now.waiting ++ db.now.history) id.now }
{
    match room.find(id) {
        Some(slip) => Some(slip),
        None => db.find_slip(id),
    }
}

/// The rule that decides an offer.
pub fn judge_offer<'a>(first: u64, db: &'a ForkDb, room: &'a WaitRoom, slip: SlipRef) -> Judged<'a>
    requires { IsBlock (slip_seen slip) }
    ensures rule { (w : World) → HasParts w db.now room.now → w.first ≡ first
        → verdict_of_judged w (slip_seen slip.entry) result
        ≡ judge_held w (slip_seen slip.entry)
        (find_id (w.waiting ++ w.history) (slip_seen slip.entry).id) }
    ensures linked { IsLinked db.now.history (slip_seen slip.entry) result }
{
    match held_slip(db, room, slip.id) {
        Some(held) => judge_same(held, slip),
        None if slip.num < first => Judged::Early,
        None => judge_linked(db, room, slip),
    }
}

/// The rule for a block whose id is held.
fn judge_same<'a>(held: &'a Slip, slip: SlipRef) -> Judged<'a>
    ensures rule { (w : World) → verdict_of_judged w (slip_seen slip.entry) result
        ≡ judge_held w (slip_seen slip.entry) (Some held.now) }
    ensures linked { (newest : List SlipOf) → IsLinked newest (slip_seen slip.entry) result }
{
    if slip.is_same(held) {
        return Judged::Duplicate;
    }
    Judged::Conflict(ConflictKind::Id, held)
}

//! The waiting blocks that follow an admitted block.

ghost use Rattle.std.specs.Prelude.{◌≡◌, ◌<◌, ◌≤◌, ◌+◌, [], length, IfSome, None, Some, true, false, ℕ, ◌^◌, Err, IfErr, IfOk, IsErr};
ghost use Rattle.std.specs.Option.{is_some, option_map};
ghost use Rattle.block_record.specs.Slips.{slip as slip_of_block};
ghost use Rattle.chain_model.specs.Ancestry.{has_id};
ghost use Rattle.relay_model.specs.Offers.{clash, purged, take_in, take_one};
ghost use Rattle.relay_model.specs.Worlds.{descendants, next_waiting};
ghost use Rattle.fork_db.specs.Claims.{IsLinkOf};
ghost use Rattle.wait_room.specs.Rooms.{AreKept, linked_in};
ghost use Rattle.block_intake.specs.Taking.{CanStart, CanTake, HoldsMore, KeepsLimits, StaysHeld, dropped_after, history_after, intake_from, intake_of, IsRoomFault};

use crate::answers::OfferFault;
use crate::drops::Drops;
use crate::judged::link_child;
use block_record::{Block, Id, Slip, SlipRef};
use fork_db::{ForkDb, ForkFault, Linked};
use relay_look::tip_number;
use std::alloc::AllocError;
use std::sync::Arc;
use wait_room::{Holds, WaitRoom};

/// The history, asked for ids.
#[derive(Drop)]
struct History<'a>(&'a ForkDb);

impl Holds for History<'_> {
    ghost history = { λ h. h.0.now.history };

    fn holds(&self, id: &Id) -> bool {
        self.0.find(id).is_some()
    }
}

/// How many waiting blocks descend from the id: no more than wait.
fn count_in(room: &WaitRoom, id: &Id) -> Result<u64, AllocError>
    ensures count { IfOk result (λ n. n ≡ descendants room.now.waiting id.now) }
    ensures small { IfOk result (λ n. n < 2 ^ 63) }
{
    let _ = room.blocks();
    let count = room.descendants(id)?;
    Ok(count)
}

/// No fewer blocks than descend from the id, found without counting them: none, or all that wait.
fn most_in(room: &WaitRoom, id: &Id) -> u64
    ensures most { descendants room.now.waiting id.now ≤ result }
    ensures small { result < 2 ^ 63 }
{
    let waiting = room.blocks();
    if room.has_child(id) { waiting } else { 0 }
}

/// No fewer blocks than descend from the id: where the limit of the history has room for all that
/// wait, not their count.
fn follow_most(db: &ForkDb, room: &WaitRoom, id: &Id) -> Result<u64, AllocError>
    ensures most { IfOk result (λ n. descendants room.now.waiting id.now ≤ n) }
    ensures small { IfOk result (λ n. n < 2 ^ 63) }
    ensures exact { IfOk result (λ n. db.now.limit < length db.now.history + (1 + n)
        → n ≡ descendants room.now.waiting id.now) }
{
    let most = most_in(room, id);
    if most < db.left() {
        return Ok(most);
    }
    count_in(room, id)
}

/// Makes room in the history for a block and the waiting blocks that descend from it, and says for
/// how many of these there is room.
pub fn make_room(db: &mut ForkDb, room: &WaitRoom, id: &Id) -> Result<u64, OfferFault>
    ensures history { db.new.history ≡ db.old.history }
    ensures held { db.new.held ≡ db.old.held }
    ensures limit { db.new.limit ≡ db.old.limit }
    ensures ok { IfOk result (λ n. (descendants room.now.waiting id.now ≤ n)
        × (1 + n ≤ db.new.room)) }
    ensures small { IfOk result (λ n. n < 2 ^ 63) }
    ensures faults { IfErr result IsRoomFault }
    // `HistoryFull` comes exactly where so many would pass the limit, but for want of memory.
    ensures full { (len need : ℕ) → result ≡ Err (OfferFault.HistoryFull len need)
        → (len ≡ length db.old.history) × (need ≡ 1 + descendants room.now.waiting id.now)
        × (db.old.limit < len + need) }
    ensures limited { db.old.limit < length db.old.history
        + (1 + descendants room.now.waiting id.now) → IsErr result }
{
    let follow = follow_most(db, room, id)?;
    match db.reserve(1 + follow) {
        Ok(()) => Ok(follow),
        Err(ForkFault::Full { len }) => Err(OfferFault::HistoryFull {
            len,
            need: 1 + follow,
        }),
        Err(ForkFault::Mem) => Err(OfferFault::Mem),
    }
}

/// Admits a block, where it is linked, and the waiting blocks that follow it, and lets
/// those go whose numbers are at most the final tip's. It takes no memory.
pub fn admit_with_followers(
    db: &mut ForkDb,
    room: &mut WaitRoom,
    drops: &mut Drops,
    slip: Slip,
    block: Option<Arc<Block>>,
    linked: Linked,
)
    requires own { IfSome block (λ b. slip ≡ slip_of_block b.value) }
    requires can { CanStart db.old room.old slip }
    requires linked { IsLinkOf db.old.history slip linked }
    requires room { 1 + descendants room.old.waiting slip.id ≤ db.old.room }
    requires empty { drops.old.conflicts ≡ [] }
    requires spare { descendants room.old.waiting slip.id ≤ drops.old.spare }
    ensures history { db.new.history
        ≡ (intake_from db.old.history room.old.waiting slip).history }
    ensures waiting { room.new.waiting ≡ purged db.new.history
        (intake_from db.old.history room.old.waiting slip).waiting }
    ensures dropped { drops.new.conflicts
        ≡ (intake_from db.old.history room.old.waiting slip).dropped }
    ensures limits { KeepsLimits db.old room.old db.new room.new }
    ensures held { is_some block ≡ true → AreKept room.old
        → StaysHeld db.old db.new room.new }
{
    let children = room.children(&slip.id);
    let _ = db.append_reserved(slip, block, linked);
    take_waiting(db, room, drops, children);
    room.drop_through(tip_number(db));
}

/// Takes the waiting blocks whose parents have come, one by one, the least number first. Each is
/// appended, or dropped where it contradicts the history. It takes no memory.
///
/// `linked` says how many of them have their parents in the history: where it is none, no block
/// that waits is looked at.
fn take_waiting(db: &mut ForkDb, room: &mut WaitRoom, drops: &mut Drops, linked: u64)
    requires linked { linked ≡ linked_in db.old.history room.old.waiting }
    requires can { CanTake (intake_of db.old room.old drops.old) db.old.room }
    requires spare { CanTake (intake_of db.old room.old drops.old) drops.old.spare }
    ensures taken { intake_of db.new room.new drops.new
        ≡ take_in (length room.old.waiting) (intake_of db.old room.old drops.old) }
    ensures limits { KeepsLimits db.old room.old db.new room.new }
    ensures held { AreKept room.old → StaysHeld db.old db.new room.new }
{
    let mut left = linked;
    for _ in 0..room.blocks() {
        if left == 0 {
            return;
        }
        left = take_next(db, room, drops, left);
    }
}

/// Takes the next of the waiting blocks whose parents have come, of which there are `linked`, and
/// says how many there are then.
fn take_next(db: &mut ForkDb, room: &mut WaitRoom, drops: &mut Drops, linked: u64) -> u64
    requires some { 0 < linked }
    requires linked { linked ≡ linked_in db.old.history room.old.waiting }
    requires can { CanTake (intake_of db.old room.old drops.old) db.old.room }
    requires spare { CanTake (intake_of db.old room.old drops.old) drops.old.spare }
    ensures linked { result ≡ linked_in db.new.history room.new.waiting }
    ensures taken { intake_of db.new room.new drops.new
        ≡ take_one (intake_of db.old room.old drops.old)
        (next_waiting db.old.history room.old.waiting) }
    ensures can { CanTake (intake_of db.new room.new drops.new) db.new.room }
    ensures spare { CanTake (intake_of db.new room.new drops.new) drops.new.spare }
    ensures limits { KeepsLimits db.old room.old db.new room.new }
    ensures held { AreKept room.old → StaysHeld db.old db.new room.new }
{
    // Fewer than 2^63 blocks wait, and no more are linked.
    let _ = room.blocks();
    match room.take_linked(&History(db), linked, newest_id(db)) {
        Some((slip, block)) => linked - 1 + place(db, room, drops, slip, block),
        None => 0,
    }
}

/// The id of the block that came last.
fn newest_id(db: &ForkDb) -> &Id
    requires { 0 < length db.now.history }
{
    &db.slip(db.len() as usize - 1).id
}

/// Appends a block whose parent is held, or drops it where it contradicts the history, and says of
/// how many waiting blocks the parent has come by that.
fn place(
    db: &mut ForkDb,
    room: &WaitRoom,
    drops: &mut Drops,
    slip: Slip,
    block: Option<Arc<Block>>,
) -> u64
    requires own { IfSome block (λ b. slip ≡ slip_of_block b.value) }
    requires fresh { has_id db.old.history slip.id ≡ false }
    requires parent { has_id db.old.history slip.parent_id ≡ true }
    requires rises { slip.parent_num < slip.num }
    requires room { 0 < db.old.room }
    requires spare { 0 < drops.old.spare }
    ensures linked { linked_in db.new.history room.now.waiting
        ≡ linked_in db.old.history room.now.waiting + result }
    ensures history { db.new.history
        ≡ history_after db.old.history slip (clash db.old.history slip) }
    ensures dropped { drops.new.conflicts
        ≡ dropped_after drops.old.conflicts (clash db.old.history slip) }
    ensures room { db.old.room ≤ db.new.room + 1 }
    ensures spare { drops.old.spare ≤ drops.new.spare + 1 }
    ensures limit { db.new.limit ≡ db.old.limit }
    ensures held { is_some block ≡ true → HoldsMore db.old db.new }
{
    let parent = db.find(&slip.parent_id).unwrap();
    match link_child(db, parent, SlipRef::of_slip(&slip)) {
        Ok(linked) => {
            let children = room.children(&slip.id);
            let _ = db.append_reserved(slip, block, linked);
            children
        }
        Err((kind, held)) => {
            drops.drop_block(kind, db.slip(held), slip);
            0
        }
    }
}

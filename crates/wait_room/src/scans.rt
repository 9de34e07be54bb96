//! Scans of the waiting blocks, in order of arrival.

ghost use Rattle.std.specs.Prelude.{◌≡◌, ◌<◌, ◌^◌, length, filter, nat_lt, IfSome, Some};
ghost use Rattle.block_record.specs.declared.blocks.Slip.{Slip as SlipOf};
ghost use Rattle.block_tree.specs.Places.{slip_at, slip_of};
ghost use Rattle.relay_model.specs.Worlds.{lesser, next_waiting, room_bytes};
ghost use Rattle.indexmap.specs.IndexSet.{insert_key, spare};
ghost use Rattle.wait_room.specs.Keys.{same_key};
ghost use Rattle.wait_room.specs.Rooms.{linked_in, slips_of, waiting_of};

use crate::holds::Holds;
use crate::waiters::Waiter;
use block_record::Slip;
use indexmap::IndexSet;

/// Of the blocks whose parents are known, where the one with the least number stands, among equals
/// the earliest.
pub fn least_linked<H: Holds>(waiters: &[Waiter], known: &H) -> Option<usize>
    ensures least { slip_of (waiting_of waiters.now) result
        ≡ next_waiting (H.history known.now) (waiting_of waiters.now) }
    ensures range { IfSome result (λ at. at < length waiters.now) }
{
    let mut best = None;
    for i in 0..waiters.len() {
        if known.holds(&waiters[i].slip.parent_id) {
            best = Some(lesser_of(waiters, best, i));
        }
    }
    best
}

/// The block at a place where its parent is known: it is the only one.
pub fn only_linked<H: Holds>(waiters: &[Waiter], known: &H, at: usize) -> Option<usize>
    requires range { at < length waiters.now }
    requires one { linked_in (H.history known.now) (waiting_of waiters.now) ≡ 1 }
    ensures least { IfSome result (λ found. slip_at (waiting_of waiters.now) found
        ≡ next_waiting (H.history known.now) (waiting_of waiters.now)) }
    ensures range { IfSome result (λ found. found < length waiters.now) }
{
    if !known.holds(&slip_in(waiters, at).parent_id) {
        return None;
    }
    Some(at)
}

/// The one with the lesser number, and of two with one number the first.
fn lesser_of(waiters: &[Waiter], best: Option<usize>, next: usize) -> usize
    requires range { next < length waiters.now }
    requires best { IfSome best (λ b. b < length waiters.now) }
    ensures lesser { (s : SlipOf) → slip_at (waiting_of waiters.now) next ≡ Some s
        → slip_at (waiting_of waiters.now) result
        ≡ lesser (slip_of (waiting_of waiters.now) best) s }
    ensures range { result < length waiters.now }
{
    match best {
        Some(b) if slip_in(waiters, next).num >= slip_in(waiters, b).num => b,
        _ => next,
    }
}

/// The slip at a place.
fn slip_in(waiters: &[Waiter], at: usize) -> &Slip
    requires { at < length waiters.now }
    ensures { slip_at (waiting_of waiters.now) at ≡ Some result.now }
{
    &waiters[at].slip
}

/// The bytes of the payloads that wait.
pub fn bytes_of(waiters: &[Waiter]) -> u64
    requires { room_bytes (slips_of waiters.now) < 2 ^ 64 }
    ensures { result ≡ room_bytes (slips_of waiters.now) }
{
    let mut bytes = 0;
    for waiter in waiters {
        bytes += u64::from(waiter.slip.length);
    }
    bytes
}

/// Adds a waiting block for which there is memory.
pub fn push_reserved(waiters: &mut IndexSet<Waiter>, waiter: Waiter)
    requires { 0 < spare waiters.old }
    ensures { waiters.new.keys ≡ insert_key same_key waiters.old.keys waiter }
{
    // It takes no memory: there is room.
    let _ = waiters.insert(waiter);
}

/// Removes the blocks with a number of at most `num`.
pub fn keep_above(waiters: &mut IndexSet<Waiter>, num: u64)
    ensures { waiters.new.keys ≡ filter (λ w. nat_lt num w.slip.num) waiters.old.keys }
{
    waiters.retain(|waiter| num < waiter.slip.num);
}

//! A whole shelf, loaded into an empty relay.

ghost use Rattle.std.specs.Prelude.{◌≡◌, ◌≤◌, OnOk};
ghost use Rattle.block_relay.specs.Chronicle.{world_told};
ghost use Rattle.store_model.specs.Laws.{IsEmpty};
ghost use Rattle.shelf_load.specs.Load.{Reloads, ShelfAnswers};

use crate::ending::{count_lost, offer_put_by, store_late};
use crate::entries::{load_merged, load_singles};
use crate::left_out::LeftOut;
use block_relay::Relay;
use one_block::read_layout;
use outer_world::Shelf;
use shelf_check::LoadFault;
use std::alloc::Global;

/// What a shelf gave a relay.
#[derive(Clone, Copy, PartialEq, Eq, Debug)]
pub struct Loaded {
    /// The blocks of the history.
    pub admitted: u64,
    /// The blocks that wait.
    pub waiting: u64,
    /// The records that were `Early` or `Stale`, or were put by and are neither held nor noted, or the
    /// greatest number of the type where there are more.
    pub passed: u64,
    /// The conflicts that were noted.
    pub conflicts: u64,
}

/// Loads a shelf into a relay that is empty and open: its size by the layout, the files of merged blocks
/// of that size by their bases, then those of `forked/` and `one/` together by number and whole name,
/// and then the blocks that were put by once more. After a refusal the relay has some of the blocks, and
/// is given up. The shelf stays as it was.
pub fn load<S: Shelf>(alloc: Global, relay: &mut Relay, shelf: &mut S) -> Result<Loaded, LoadFault>
    requires { IsEmpty (world_told relay.old) }
    ensures answer { ShelfAnswers (S.files shelf.old) (world_told relay.old) (world_told relay.new)
        (S.shelf_faults shelf.old) (S.shelf_faults shelf.new) result }
    // What the files kept of an older relay is there again, with its final path as a front.
    ensures reloads { OnOk result
        (Reloads (S.files shelf.old) (world_told relay.old) (world_told relay.new)) }
    ensures run { OnOk result ((world_told relay.new).run ≡ (world_told relay.old).run) }
    ensures files { S.files shelf.new ≡ S.files shelf.old }
    ensures staged { S.staged shelf.new ≡ S.staged shelf.old }
    ensures later { S.shelf_faults shelf.old ≤ S.shelf_faults shelf.new }
{
    let size = read_layout(alloc, shelf)?;
    relay.set_size(size);
    // The world is sound.
    let _ = relay.len();
    let mut left = LeftOut::new(alloc);
    load_merged(alloc, relay, &mut left, shelf, size)?;
    load_singles(alloc, relay, &mut left, shelf)?;
    offer_put_by(relay, left.put_by())?;
    store_late(relay, left.late());
    let lost = count_lost(relay, left.put_by());
    Ok(Loaded {
        admitted: relay.len(),
        waiting: relay.waiting(),
        passed: left.passed().saturating_add(lost),
        conflicts: relay.conflicts().len() as u64,
    })
}

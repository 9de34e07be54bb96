//! The memory of what a relay takes, taken before anything changes.

ghost use Rattle.std.specs.Prelude.{◌≡◌, ◌<◌, ◌≤◌, ◌+◌, ◌-◌, ◌*◌, ◌^◌, length, vec_len, vec_capacity, ℕ, Err, IfErr, IsErr, OnOk};
ghost use Rattle.block_intake.specs.Intakes.{IsUnchanged};
ghost use Rattle.block_intake.specs.Taking.{IsRoomFault};
ghost use Rattle.relay_model.specs.Worlds.{descendants};
ghost use Rattle.block_relay.specs.Memory.{HasMemory};

use crate::marks::Mark;
use block_intake::{Conflict, Intake, OfferFault, reserve_buffers};
use block_record::{Id, Slip, SlipBuffer};
use std::alloc::{AllocError, Global};
use stored_blocks::StoredBlocks;

/// Makes room for the marks of a block and so many that follow, of their being stored, of the kind and
/// of the end, beside one for each block that is retained.
pub fn reserve_marks(marks: &mut Vec<Mark>, retained: u64, follow: u64) -> Result<(), AllocError>
    requires { follow < 2 ^ 63 }
    ensures items { marks.new.items ≡ marks.old.items }
    ensures len { vec_len marks.new ≡ vec_len marks.old }
    ensures capacity { vec_capacity marks.old ≤ vec_capacity marks.new }
    ensures ok { OnOk result
        (vec_len marks.new + (retained + 2 * follow + 4) ≤ vec_capacity marks.new) }
{
    let Some(once) = retained.checked_add(follow + 2) else {
        return Err(AllocError);
    };
    match once.checked_add(follow + 2) {
        Some(room) => marks.reserve(room as usize),
        None => Err(AllocError),
    }
}

/// Takes the memory to admit a block of the id with the waiting blocks that descend from it: to append
/// them, to mark them, the kind and the end, and to tell and note those that are dropped.
pub fn reserve_admission(
    alloc: Global,
    id: &Id,
    intake: &mut Intake,
    stored: &mut StoredBlocks,
    marks: &mut Vec<Mark>,
    conflicts: &mut Vec<Conflict>,
    buffers: &mut Vec<SlipBuffer>,
) -> Result<(), OfferFault>
    requires { stored.old.stored ≤ length intake.old.forks.history }
    ensures unchanged { IsUnchanged intake.old intake.new }
    ensures stored { stored.new ≡ record stored.old { room = stored.new.room } }
    ensures marks { marks.new.items ≡ marks.old.items }
    ensures conflicts { conflicts.new.items ≡ conflicts.old.items }
    ensures len { vec_len marks.new ≡ vec_len marks.old }
    ensures capacity { vec_capacity marks.old ≤ vec_capacity marks.new }
    ensures ok { OnOk result (HasMemory (descendants intake.old.room.waiting id.now)
        intake.new stored.new (vec_capacity marks.new - vec_len marks.new)
        (vec_capacity conflicts.new - vec_len conflicts.new) (vec_len buffers.new)) }
    // `HistoryFull` comes exactly where so many would pass the limit, but for want of memory.
    ensures full { (len need : ℕ) → result ≡ Err (OfferFault.HistoryFull len need)
        → (len ≡ length intake.old.forks.history)
        × (need ≡ 1 + descendants intake.old.room.waiting id.now)
        × (intake.old.forks.limit < len + need) }
    ensures limited { intake.old.forks.limit < length intake.old.forks.history
        + (1 + descendants intake.old.room.waiting id.now) → IsErr result }
    ensures faults { IfErr result IsRoomFault }
{
    let follow = intake.make_room(id)?;
    reserve_marks(marks, intake.len() - stored.stored(), follow)?;
    stored.reserve(follow as usize + 1)?;
    conflicts.reserve(follow as usize)?;
    reserve_buffers(alloc, 2 * follow as usize, buffers)?;
    Ok(())
}

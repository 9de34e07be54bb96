//! The conflicts of blocks that an admission drops, noted as they were told.

ghost use Rattle.std.specs.Prelude.{◌≡◌, ◌≤◌, ◌+◌, ◌*◌, ◌++◌, length, vec_len, vec_capacity};

use block_record::SlipBuffer;
use relay_model::Conflict;

/// Appends copies of conflicts for which there is memory: room, and two buffers for each. It takes no
/// memory.
pub fn note_dropped(
    conflicts: &mut Vec<Conflict>,
    buffers: &mut Vec<SlipBuffer>,
    dropped: &[Conflict],
)
    requires room { vec_len conflicts.old + length dropped.now ≤ vec_capacity conflicts.old }
    requires buffers { 2 * length dropped.now ≤ vec_len buffers.old }
    ensures { conflicts.new.items ≡ conflicts.old.items ++ dropped.now }
{
    for conflict in dropped {
        let held = buffers.take_last();
        let offered = buffers.take_last();
        conflicts.push_reserved(Conflict {
            kind: conflict.kind,
            held: held.copy(&conflict.held),
            offered: offered.copy(&conflict.offered),
        });
    }
}

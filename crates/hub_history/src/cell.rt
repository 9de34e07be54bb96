//! The cell, and what one thread knows of it.
ghost use Rattle.std.specs.Prelude.{◌≡◌, [], length};
ghost use Rattle.hub_history.specs.declared.view.Stage.TheVariants.{Idle};

use crate::chronicle::Chronicle;
use crate::plays::Turns;
use crate::view::View;
use atomic_table::{Seat, Table};
use std::alloc::Global;
use std::snapshot::Snapshot;

/// A value that threads change in turns. It is shared by reference.
#[derive(Drop)]
pub struct HubCell<V: Chronicle> {
    // Word 0 is the ticket that is served, word 1 the number of tickets drawn. The slot has the
    // value.
    pub(crate) table: Table<Option<V>, View<V::Entry>, Snapshot<V>, Turns<V>, Global>,
    ghost sized: { (table.shared.table_id.words ≡ 2) × (table.shared.table_id.slots ≡ 1) },
}

/// What one thread has seen of a cell: a beginning of the list that the value stands for. Each pass
/// is of one cell, and of the passes of a cell at most one leads.
#[derive(Drop)]
pub struct Pass<V: Chronicle> {
    pub(crate) seat: Seat<Option<V>, View<V::Entry>>,
    pub(crate) count: u64,
    pub(crate) lead: bool,
    ghost idle: { (seat.me.0.stage ≡ Idle) × (seat.me.1 ≡ []) },
    ghost counted: { count ≡ length seat.me.0.seen },
    ghost lead_is: { lead ≡ seat.me.0.leads },
}

//! How a cell begins and ends.
ghost use Rattle.std.specs.Prelude.{◌≡◌, ◌^◌, true, false, IfOk, IfErr, IsErr};
ghost use mathlib.Core.List.{IsPrefix};
ghost use Rattle.hub_history.specs.Chronicles.{Covers};
ghost use Rattle.hub_history.specs.Passes.{FoundAllDrawn, IsFirst, IsPassOf, seen_of, leads_of, is_over, drawn_of, id_of};

use crate::cell::{HubCell, Pass};
use crate::chronicle::Chronicle;
use crate::steps::TICKETS;
use atomic_table::{Refused, Table};
use std::alloc::{AllocError, Global};
use std::snapshot::Snapshot;
use std::sync::Wait;

/// All tickets of the cell were drawn, so there is no last turn. The cell and the pass come back.
#[derive(Drop)]
pub struct Unclosed<V: Chronicle> {
    /// How many were drawn: 2^62.
    pub tickets: u64,
    pub cell: HubCell<V>,
    pub pass: Pass<V>,
}

impl<V: Chronicle> HubCell<V> {
    /// A cell with this value, and its first pass, which has seen the value's list and leads. Where
    /// memory runs out the value comes back.
    pub fn open(alloc: Global, value: V) -> Result<(HubCell<V>, Pass<V>), (V, AllocError)>
        ensures own { IfOk result (λ (cell, pass). IsPassOf cell pass) }
        ensures seen { IfOk result (λ (cell, pass). seen_of pass ≡ V.entries_of value) }
        ensures first { IfOk result (λ (cell, pass). IsFirst pass) }
        ensures back { IfErr result (λ (left, error). left ≡ value) }
    {
        let about = Snapshot::of(&value);
        let count = value.entries();
        let Ok(mut slots) = Vec::with_capacity(alloc, 1) else {
            return Err((value, AllocError));
        };
        slots.push_reserved(Some(value));
        match Table::new(alloc, &[0, 0], slots, &about) {
            Ok((table, seat)) => {
                let pass = Pass {
                    seat,
                    count,
                    lead: true,
                };
                Ok((HubCell { table }, pass))
            }
            Err(refused) => {
                let Refused { mut slots } = refused;
                let Some(Some(value)) = slots.pop() else {
                    unreachable!()
                };
                slots.destroy_empty();
                Err((value, AllocError))
            }
        }
    }

    /// Draws the last ticket, waits for its turn and takes the value out.
    pub fn close<R: Wait>(self, rt: &R, mut pass: Pass<V>) -> Result<V, Unclosed<V>>
        requires own { IsPassOf self pass }

        // The value's list begins with what the pass had seen, and where the pass leads, it had
        // seen all marked entries.
        ensures value { IfOk result (λ value. IsPrefix (seen_of pass) (V.entries_of value)) }
        ensures marks { IfOk result (λ value. leads_of pass ≡ true
            → Covers V.marked (seen_of pass) (V.entries_of value)) }

        // All tickets were drawn, which the pass then knows, and nothing else changed. A pass that
        // is sole drew them all itself.
        ensures tickets { IfErr result (λ left. left.tickets ≡ 2 ^ 62) }
        ensures cell { IfErr result (λ left. left.cell ≡ self) }
        ensures own { IfErr result (λ left. IsPassOf self left.pass) }
        ensures spent { IfErr result (λ left. FoundAllDrawn pass left.pass) }
        ensures stays { is_over pass ≡ true → IsErr result }
        ensures full { drawn_of pass ≡ 2 ^ 62 → IsErr result }
    {
        let Some(ticket) = self.draw(rt, &mut pass.seat) else {
            return Err(Unclosed {
                tickets: TICKETS,
                cell: self,
                pass,
            });
        };
        self.arrive(rt, &mut pass.seat, ticket);
        let HubCell { table } = self;
        let Pass { seat, .. } = pass;
        let mut closed = table.close_with(seat);
        let value = closed.take(0);
        closed.free();
        match value {
            Some(value) => Ok(value),
            None => unreachable!(),
        }
    }
}

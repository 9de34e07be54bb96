//! The steps of one turn on the table: draw a ticket, wait for it and take the value, give it back.
ghost use Rattle.std.specs.Prelude.{◌≡◌, ◌⊎◌, ◌^◌, ◌<◌, true, false, List, [], ◌∷◌, None, MatchOption};
ghost use mathlib.Core.List.{IsPrefix};
ghost use Rattle.hub_history.specs.declared.view.Stage.TheVariants.{Idle, Waits, Runs, Ends};
ghost use Rattle.hub_history.specs.Chronicles.{Covers};
ghost use Rattle.hub_history.specs.Turns.{with_stage, with_ticket, with_over, given_view};
ghost use Rattle.hub_history.specs.Tells.{Finds, IsSameSeat};

use crate::cell::HubCell;
use crate::chronicle::Chronicle;
use crate::plays::{Arrive, Draw, Raise, Take};
use crate::view::View;
use atomic_table::Seat;
use std::sync::Wait;
use std::thread;

// So many tickets are drawn in all.
pub(crate) const TICKETS: u64 = 1 << 62;

// A thread that waits for its turn looks and yields so many times before it sleeps.
const YIELDS: u32 = 40;

impl<V: Chronicle> HubCell<V> {
    // Draws a ticket, or finds that all were drawn.
    pub(crate) fn draw<R: Wait>(
        &self,
        rt: &R,
        seat: &mut Seat<Option<V>, View<V::Entry>>,
    ) -> Option<u64>
        requires own { seat.old.table_id ≡ self.now.table.shared.table_id }
        requires idle { seat.old.me.0.stage ≡ Idle }
        ensures own { IsSameSeat seat.old seat.new × (seat.new.me.1 ≡ seat.old.me.1) }
        ensures told { MatchOption result
            ((seat.new.me.0 ≡ with_over seat.old.me.0)
            × (seat.old.me.0.sole ≡ true → seat.old.me.0.drawn ≡ 2 ^ 62))
            (λ t. (seat.new.me.0 ≡ with_ticket t seat.old.me.0)
            × (seat.old.me.0.over ≡ false) × (seat.old.me.0.drawn < 2 ^ 62)) }
    {
        let mut guess = 0;
        for _ in rt.forever() {
            let found = self
                .table
                .shared
                .compare_exchange::<Draw>(seat, 1, guess, guess + 1);
            if found == guess {
                return Some(found);
            }
            if found >= TICKETS {
                return None;
            }
            guess = found;
        }
        unreachable!()
    }

    // Lets others run after a look that found another ticket served: yields at first, and after
    // some rounds sleeps until the next ticket is served.
    fn rest<R: Wait>(&self, rt: &R, served: u64, round: u32) {
        if round < YIELDS {
            thread::yield_now();
        } else {
            self.table.shared.park(rt, 0, (served & 0xffff_ffff) as u32);
        }
    }

    // Wakes those that sleep, where the ticket that is served now was drawn already. Who draws it
    // later looks later too, and finds it served.
    fn wake(&self, served: u64) {
        if self.table.shared.peek(1) > served {
            self.table.shared.wake_all(0);
        }
    }

    // Waits until the ticket is served, and takes the value.
    pub(crate) fn take<R: Wait>(
        &self,
        rt: &R,
        seat: &mut Seat<Option<V>, View<V::Entry>>,
        ticket: u64,
    ) -> V
        requires own { seat.old.table_id ≡ self.now.table.shared.table_id }
        requires waits { (seat.old.me.0.stage ≡ Waits ticket) × (seat.old.me.1 ≡ []) }
        ensures own { IsSameSeat seat.old seat.new }
        ensures told { (seat.new.me
            ≡ (with_stage (Runs (V.entries_of result)) seat.old.me.0, (0, None) ∷ []))
            × Finds V.marked seat.old.me.0 (V.entries_of result) }
    {
        let mut round = 0u32;
        for _ in rt.forever() {
            let served = self.table.shared.load::<Take<V>>(seat, 0);
            if served == ticket {
                match self.table.shared.exchange(seat, 0, None) {
                    Some(value) => return value,
                    None => unreachable!(),
                }
            }
            self.rest(rt, served, round);
            round = round.saturating_add(1);
        }
        unreachable!()
    }

    // Waits until the ticket is served, and leaves the value at home.
    pub(crate) fn arrive<R: Wait>(
        &self,
        rt: &R,
        seat: &mut Seat<Option<V>, View<V::Entry>>,
        ticket: u64,
    )
        requires own { seat.old.table_id ≡ self.now.table.shared.table_id }
        requires waits { (seat.old.me.0.stage ≡ Waits ticket) × (seat.old.me.1 ≡ []) }
        ensures own { IsSameSeat seat.old seat.new }
        ensures told { (found : List V.Entry)
            × (seat.new.me ≡ (with_stage (Ends found) seat.old.me.0, []))
            × Finds V.marked seat.old.me.0 found }
    {
        let mut round = 0u32;
        for _ in rt.forever() {
            let reached = self.table.shared.load::<Arrive<V>>(seat, 0);
            if reached == ticket {
                return;
            }
            self.rest(rt, reached, round);
            round = round.saturating_add(1);
        }
        unreachable!()
    }

    // Gives the value back, and serves the next ticket.
    pub(crate) fn give(&self, seat: &mut Seat<Option<V>, View<V::Entry>>, value: V)
        requires own { seat.old.table_id ≡ self.now.table.shared.table_id }
        requires runs { (found : List V.Entry) × (seat.old.me.0.stage ≡ Runs found)
            × (seat.old.me.1 ≡ (0, None) ∷ []) × IsPrefix found (V.entries_of value)
            × ((seat.old.me.0.leads ≡ true) ⊎ Covers V.marked found (V.entries_of value)) }
        ensures own { IsSameSeat seat.old seat.new }
        ensures told { seat.new.me ≡ (given_view (V.entries_of value) seat.old.me.0, []) }
    {
        match self.table.shared.exchange(seat, 0, Some(value)) {
            None => {}
            Some(_) => unreachable!(),
        }
        let served = self.table.shared.fetch_add::<Raise<V>>(seat, 0, 1);
        self.wake(served.saturating_add(1));
    }
}

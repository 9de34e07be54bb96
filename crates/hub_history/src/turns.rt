//! A turn: the job runs on the value, alone.
ghost use Rattle.std.specs.Prelude.{◌≡◌, ◌^◌, ◌⊎◌, true, false, IfOk, IfErr, IsErr, OnOk, OnErr};
ghost use mathlib.Core.List.{IsPrefix};
ghost use Rattle.hub_history.specs.Chronicles.{HoldsFrom, Ran};
ghost use Rattle.hub_history.specs.Passes.{DrewOne, FoundAllDrawn, IsPassOf, seen_of, leads_of, is_over, drawn_of, id_of};

use crate::cell::{HubCell, Pass};
use crate::chronicle::{Chronicle, Job};
use crate::steps::TICKETS;
use std::sync::Wait;

/// All tickets of the cell were drawn, and the job did not run: it comes back.
#[derive(Drop)]
pub struct Spent<J> {
    /// How many were drawn: 2^62.
    pub tickets: u64,
    pub job: J,
}

impl<V: Chronicle> HubCell<V> {
    /// Draws a ticket, waits for its turn and runs the job on the value. The job finds a list that
    /// begins with all that the pass had seen, and the pass has then seen the list that it leaves.
    pub fn turn<J: Job<V>, R: Wait>(
        &self,
        rt: &R,
        pass: &mut Pass<V>,
        job: J,
    ) -> Result<J::Out, Spent<J>>
        requires own { IsPassOf self.now pass.old }
        requires marks { (leads_of pass.old ≡ true) ⊎ (J.marks job ≡ false) }
        requires needs { HoldsFrom (seen_of pass.old) (J.needs job) }

        // The pass stays one of this cell, knows no less, and leads as before.
        ensures own { IsPassOf self.now pass.new }
        ensures leads { leads_of pass.new ≡ leads_of pass.old }
        ensures grows { IsPrefix (seen_of pass.old) (seen_of pass.new) }

        // The job ran, in turn.
        ensures ran { IfOk result (λ out. Ran V.marked (leads_of pass.old)
            (seen_of pass.old) (seen_of pass.new)
            (λ before after. J.promises job before after out)) }
        ensures drew { OnOk result (DrewOne pass.old pass.new) }

        // All tickets were drawn, which the pass then knows, and nothing ran. A pass that is sole
        // drew them all itself.
        ensures tickets { IfErr result (λ spent. spent.tickets ≡ 2 ^ 62) }
        ensures back { IfErr result (λ spent. spent.job ≡ job) }
        ensures spent { OnErr result (FoundAllDrawn pass.old pass.new) }
        ensures stays { is_over pass.old ≡ true → IsErr result }
        ensures full { drawn_of pass.old ≡ 2 ^ 62 → IsErr result }
    {
        let Some(ticket) = self.draw(rt, &mut pass.seat) else {
            return Err(Spent {
                tickets: TICKETS,
                job,
            });
        };
        let mut value = self.take(rt, &mut pass.seat, ticket);
        let out = job.run(&mut value);
        pass.count = value.entries();
        self.give(&mut pass.seat, value);
        Ok(out)
    }
}

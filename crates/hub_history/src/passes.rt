//! How passes are split off and put together.
ghost use Rattle.std.specs.Prelude.{◌≡◌, ◌+◌, ◌||◌, true, false, length};
ghost use mathlib.Core.List.{IsPrefix};
ghost use Rattle.hub_history.specs.Chronicles.{longer_of};
ghost use Rattle.hub_history.specs.Passes.{IsPassOf, IsUnchanged, IsCopy, seen_of, leads_of, is_over, drawn_of, is_sole};

use crate::cell::{HubCell, Pass};
use crate::chronicle::Chronicle;
use crate::plays::{JoinPass, Learn, SplitPass};

impl<V: Chronicle> Pass<V> {
    /// How many entries the pass has seen.
    pub fn seen(&self) -> u64
        ensures { result ≡ length (seen_of self.now) }
    {
        self.count
    }

    /// Whether this is the pass that may have marked entries added.
    pub fn leads(&self) -> bool
        ensures { result ≡ leads_of self.now }
    {
        self.lead
    }
}

impl<V: Chronicle> HubCell<V> {
    /// A new pass that has seen what this one has, drew no ticket and does not lead.
    pub fn split(&self, pass: &mut Pass<V>) -> Pass<V>
        requires own { IsPassOf self.now pass.old }
        ensures own { IsPassOf self.now pass.new }
        ensures same { IsUnchanged pass.old pass.new }
        ensures shared { is_sole pass.new ≡ false }
        ensures also_own { IsPassOf self.now result }
        ensures copy { IsCopy pass.old result }
    {
        let seat = self.table.shared.split_seat::<SplitPass>(&mut pass.seat);
        Pass {
            seat,
            count: pass.count,
            lead: false,
        }
    }

    /// Puts together what two passes know. The second one is used up.
    pub fn join(&self, pass: &mut Pass<V>, other: Pass<V>)
        requires own { IsPassOf self.now pass.old }
        requires also_own { IsPassOf self.now other }
        ensures own { IsPassOf self.now pass.new }
        ensures grows { IsPrefix (seen_of pass.old) (seen_of pass.new) }
        ensures takes_in { IsPrefix (seen_of other) (seen_of pass.new) }
        ensures longer { seen_of pass.new ≡ longer_of (seen_of pass.old) (seen_of other) }
        ensures leads { leads_of pass.new ≡ leads_of pass.old || leads_of other }
        ensures one_leads { leads_of pass.old ≡ true → leads_of other ≡ false }
        ensures over { is_over pass.new ≡ is_over pass.old || is_over other }
        ensures drawn { drawn_of pass.new ≡ drawn_of pass.old + drawn_of other }
    {
        let Pass { seat, count, lead } = other;
        self.table
            .shared
            .join_seat::<JoinPass>(&mut pass.seat, seat);
        self.table.shared.load::<Learn>(&mut pass.seat, 0);
        if pass.count < count {
            pass.count = count;
        }
        pass.lead = pass.lead || lead;
    }

    /// The pass sees what the other one has seen. The other one stays as it was.
    pub fn meet(&self, pass: &mut Pass<V>, other: &mut Pass<V>)
        requires own { IsPassOf self.now pass.old }
        requires also_own { IsPassOf self.now other.old }
        ensures own { IsPassOf self.now pass.new }
        ensures grows { IsPrefix (seen_of pass.old) (seen_of pass.new) }
        ensures takes_in { IsPrefix (seen_of other.old) (seen_of pass.new) }
        ensures longer { seen_of pass.new ≡ longer_of (seen_of pass.old) (seen_of other.old) }
        ensures leads { leads_of pass.new ≡ leads_of pass.old }
        ensures drawn { drawn_of pass.new ≡ drawn_of pass.old }
        ensures also_own { IsPassOf self.now other.new }
        ensures same { IsUnchanged other.old other.new }
    {
        let copy = self.split(other);
        self.join(pass, copy);
    }
}

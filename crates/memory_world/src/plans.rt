//! Objects that fail at the calls of a list.

ghost use Rattle.std.specs.Prelude.{◌≡◌, ◌≤◌, IsTrue};
ghost use Rattle.outer_world.specs.Causes.{Rose};
ghost use Rattle.memory_world.specs.Guards.{guarded};
ghost use Rattle.memory_world.specs.Plans.{fails_next, new_plan, plan_after};

use crate::guarded::{Guard, Guarded};
use std::marker::Model;

/// The numbers of the calls that are to fail, counted from 0, and how far the calls have come.
#[derive(Drop)]
pub struct FaultPlan {
    fails: Vec<u64>,
    next: u64,
    faults: u64,
}

impl Model for FaultPlan {
    ghost use Rattle.memory_world.specs.Plans.{Plan};

    ghost Value = { Plan };

    ghost view = { λ p. record { fails = p.fails.items; next = p.next; faults = p.faults } };
}

impl FaultPlan {
    fn new(fails: Vec<u64>) -> Self
        ensures { result ≡ new_plan fails.items }
    {
        FaultPlan {
            fails,
            next: 0,
            faults: 0,
        }
    }
}

impl Guard for FaultPlan {
    ghost fails = { fails_next };

    ghost after = { plan_after };

    ghost failed = { λ p. p.faults };

    fn next_fails(&mut self) -> bool {
        let fails = self.fails.contains(&self.next);
        self.next = self.next.saturating_add(1);
        if fails {
            self.faults = self.faults.saturating_add(1);
        }
        fails
    }

    fn failed_calls(&self) -> u64 {
        self.faults
    }
}

/// A source that fails at the calls of a list, and else reads from the source inside.
pub type FailingSource<S> = Guarded<S, FaultPlan>;

/// A sink that fails at the calls of a list, and else writes into the sink inside.
pub type FailingSink<K> = Guarded<K, FaultPlan>;

/// A shelf that fails at the calls of a list, and else calls the shelf inside. Each call but
/// `unstage` is counted.
pub type FailingShelf<S> = Guarded<S, FaultPlan>;

impl<S> Guarded<S, FaultPlan> {
    /// An object round this one, whose calls with these numbers, counted from 0, fail.
    pub fn new(inner: S, fails: Vec<u64>) -> Self
        ensures { result ≡ guarded inner (new_plan fails.items) }
    {
        Guarded::with_guard(inner, FaultPlan::new(fails))
    }

    /// The object inside, given back.
    pub fn into_inner(self) -> S
        ensures { result ≡ self.inner }
    {
        let Guarded { inner, guard: _ } = self;
        inner
    }
}

//! An object that stops after some calls.

ghost use Rattle.std.specs.Prelude.{◌≡◌, ◌≤◌, IsTrue};
ghost use Rattle.outer_world.specs.Causes.{Rose};
ghost use Rattle.outer_world.specs.Shelves.{emptied};
ghost use Rattle.memory_world.specs.Guards.{guarded};
ghost use Rattle.memory_world.specs.Plans.{is_burnt, new_wire, wire_after};

use crate::guarded::{Guard, Guarded};
use outer_world::Shelf;
use std::marker::Model;

/// How many calls are passed on, and how many came later.
#[derive(Drop)]
pub struct FuseWire {
    left: u64,
    faults: u64,
}

impl Model for FuseWire {
    ghost use Rattle.memory_world.specs.Plans.{Wire};

    ghost Value = { Wire };

    ghost view = { λ w. record { left = w.left; faults = w.faults } };
}

impl FuseWire {
    fn new(calls: u64) -> Self
        ensures { result ≡ new_wire calls }
    {
        FuseWire {
            left: calls,
            faults: 0,
        }
    }
}

impl Guard for FuseWire {
    ghost fails = { is_burnt };

    ghost after = { wire_after };

    ghost failed = { λ w. w.faults };

    fn next_fails(&mut self) -> bool {
        if self.left == 0 {
            self.faults = self.faults.saturating_add(1);
            return true;
        }
        self.left -= 1;
        false
    }

    fn failed_calls(&self) -> u64 {
        self.faults
    }
}

/// An object that passes some calls on to the one inside and fails every later one, as a program that
/// is stopped there leaves it.
pub type Fuse<S> = Guarded<S, FuseWire>;

impl<S: Shelf> Guarded<S, FuseWire> {
    /// A shelf round this one, which passes this many calls on. Each call but `unstage` is counted.
    pub fn new(inner: S, calls: u64) -> Self
        ensures { result ≡ guarded inner (new_wire calls) }
    {
        Guarded::with_guard(inner, FuseWire::new(calls))
    }

    /// The shelf inside, as it is found after the stop: the staged text is lost, and nothing else.
    pub fn into_inner(self) -> S
        ensures files { S.files result ≡ S.files self.inner }
        ensures staged { S.staged result ≡ emptied (S.staged self.inner) }
    {
        let Guarded { inner, guard: _ } = self;
        let mut shelf = inner;
        shelf.unstage();
        shelf
    }
}

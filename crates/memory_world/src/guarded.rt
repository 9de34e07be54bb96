//! Sources, sinks and shelves round another one, of which some calls fail.

ghost use Rattle.std.specs.Prelude.{◌≡◌, ◌≤◌, Bool, ℕ, IsTrue, IsErr};
ghost use Rattle.std.specs.Io.{ReadsAtMost, WritesAtMost};
ghost use Rattle.std.specs.Io.KnownBytes.{ReadConsumes};
ghost use Rattle.outer_world.specs.Causes.{HasCause, Rose};
ghost use Rattle.outer_world.specs.Told.{ReadGives, TakesSome, WriteGrows};
ghost use Rattle.memory_world.specs.Guards.{FailsNext, PassesNext, all_faults, guarded};

use outer_world::{Failed, Sink, Source};
use std::marker::Model;

/// What says which calls of an object fail.
pub trait Guard {
    /// Whether the next call is to fail.
    ghost fails: { Self → Bool };

    /// The guard after one more call.
    ghost after: { Self → Self };

    /// How many calls have failed by it.
    ghost failed: { Self → ℕ };

    /// Counts one more call, and says whether it is to fail.
    fn next_fails(&mut self) -> bool
        ensures answer { result ≡ fails self.old }
        ensures after { self.new ≡ after self.old }
        ensures later { failed self.old ≤ failed self.new }
        ensures rose { IsTrue result → Rose (failed self.old) (failed self.new) };

    /// How many calls have failed by it.
    fn failed_calls(&self) -> u64
        ensures { result ≡ failed self.now };
}

/// An object round another one. The calls that its guard says fail, and touch nothing of the object
/// inside; any other is passed on.
#[derive(Drop)]
pub struct Guarded<S, G: Guard> {
    pub(crate) inner: S,
    pub(crate) guard: G,
}

impl<S, G: Guard> Model for Guarded<S, G> {
    ghost use Rattle.memory_world.specs.Guards.{Guarded, guarded_code};

    ghost Value = { Guarded S G };

    ghost coded = { guarded_code S.code G.code };

    ghost view = { λ s. record { inner = s.inner; guard = s.guard } };
}

impl<S, G: Guard> Guarded<S, G> {
    pub(crate) fn with_guard(inner: S, guard: G) -> Self
        ensures { result ≡ guarded inner guard }
    {
        Guarded { inner, guard }
    }

    /// The object inside.
    pub fn inner(&self) -> &S
        ensures { result.now ≡ self.now.inner }
    {
        &self.inner
    }

    /// How many calls have failed by the guard.
    pub fn faults(&self) -> u64
        ensures { result ≡ G.failed self.now.guard }
    {
        self.guard.failed_calls()
    }
}

impl<S: Source, G: Guard> Source for Guarded<S, G> {
    ghost left = { λ s. S.left s.inner };

    ghost given = { λ s. S.given s.inner };

    ghost read_faults = { all_faults S.read_faults G.failed };

    fn read(&mut self, buf: &mut [u8]) -> Result<usize, Failed>
        ensures bound { ReadsAtMost result buf.new }
        ensures left { ReadConsumes (S.left self.old.inner) (S.left self.new.inner) result buf.new }
        ensures given { ReadGives (S.given self.old.inner) (S.given self.new.inner) result buf.new }
        ensures cause { HasCause (all_faults S.read_faults G.failed self.old)
            (all_faults S.read_faults G.failed self.new) result }
        ensures after { self.new.guard ≡ G.after self.old.guard }

        // A call that is to fail touches neither the source inside nor the buffer.
        ensures listed { FailsNext G.fails self.old → IsErr result }
        ensures inner { FailsNext G.fails self.old → self.new.inner ≡ self.old.inner }
        ensures buffer { FailsNext G.fails self.old → buf.new ≡ buf.old }

        // Any other has the cause of the source inside.
        ensures passed { PassesNext G.fails self.old → HasCause
            (S.read_faults self.old.inner) (S.read_faults self.new.inner) result }
    {
        if self.guard.next_fails() {
            return Err(Failed);
        }
        self.inner.read(buf)
    }
}

impl<K: Sink, G: Guard> Sink for Guarded<K, G> {
    ghost written = { λ s. K.written s.inner };

    ghost write_faults = { all_faults K.write_faults G.failed };

    fn write(&mut self, piece: &[u8]) -> Result<usize, Failed>
        ensures bound { WritesAtMost result piece.now }
        ensures some { TakesSome result piece.now }
        ensures written { WriteGrows
            (K.written self.old.inner) (K.written self.new.inner) result piece.now }
        ensures cause { HasCause (all_faults K.write_faults G.failed self.old)
            (all_faults K.write_faults G.failed self.new) result }
        ensures after { self.new.guard ≡ G.after self.old.guard }

        // A call that is to fail does not touch the sink inside.
        ensures listed { FailsNext G.fails self.old → IsErr result }
        ensures inner { FailsNext G.fails self.old → self.new.inner ≡ self.old.inner }

        // Any other has the cause of the sink inside.
        ensures passed { PassesNext G.fails self.old → HasCause
            (K.write_faults self.old.inner) (K.write_faults self.new.inner) result }
    {
        if self.guard.next_fails() {
            return Err(Failed);
        }
        self.inner.write(piece)
    }
}

//! A shelf round another one, of which some calls fail. Each call but `unstage` is one of the guard.

ghost use Rattle.std.specs.Prelude.{◌≡◌, ◌≤◌, IfErr, IfOk, OnErr, OnOk};
ghost use Rattle.std.specs.Io.{ReadsAtMost};
ghost use Rattle.outer_world.specs.Shelves.{CommitRefused, Commits, HasShelfCause, HasSize, Lists, ReadsFile, RemoveRefused, StagesFront, emptied, told_without, with_piece};
ghost use Rattle.memory_world.specs.Guards.{IsGuarded, all_faults};

use crate::guarded::{Guard, Guarded};
use outer_world::{FileName, Shelf, ShelfFail};
use std::alloc::Global;

impl<S: Shelf, G: Guard> Shelf for Guarded<S, G> {
    ghost files = { λ s. S.files s.inner };

    ghost staged = { λ s. S.staged s.inner };

    ghost shelf_faults = { all_faults S.shelf_faults G.failed };

    fn list(
        &mut self,
        alloc: Global,
        folder: &str,
        out: &mut Vec<FileName>,
    ) -> Result<(), ShelfFail>
        ensures names { OnOk result (Lists
            (S.files self.old.inner) folder.now out.old.items out.new.items) }
        ensures unlisted { OnErr result (out.new.items ≡ out.old.items) }
        ensures files { S.files self.new.inner ≡ S.files self.old.inner }
        ensures staged { S.staged self.new.inner ≡ S.staged self.old.inner }
        ensures cause { HasShelfCause (all_faults S.shelf_faults G.failed self.old) (all_faults S.shelf_faults G.failed self.new) result }
        ensures call { IsGuarded G.fails G.after S.shelf_faults self.old self.new result }
    {
        if self.guard.next_fails() {
            return Err(ShelfFail::Failed);
        }
        self.inner.list(alloc, folder, out)
    }

    fn size(&mut self, name: &FileName) -> Result<Option<u64>, ShelfFail>
        ensures size { IfOk result (HasSize (S.files self.old.inner) name.now) }
        ensures files { S.files self.new.inner ≡ S.files self.old.inner }
        ensures staged { S.staged self.new.inner ≡ S.staged self.old.inner }
        ensures cause { HasShelfCause (all_faults S.shelf_faults G.failed self.old) (all_faults S.shelf_faults G.failed self.new) result }
        ensures call { IsGuarded G.fails G.after S.shelf_faults self.old self.new result }
    {
        if self.guard.next_fails() {
            return Err(ShelfFail::Failed);
        }
        self.inner.size(name)
    }

    fn read_at(&mut self, name: &FileName, at: u64, buf: &mut [u8]) -> Result<usize, ShelfFail>
        ensures bound { ReadsAtMost result buf.new }
        ensures bytes { IfOk result (λ count. ReadsFile
            (S.files self.old.inner) name.now at count buf.new) }
        ensures files { S.files self.new.inner ≡ S.files self.old.inner }
        ensures staged { S.staged self.new.inner ≡ S.staged self.old.inner }
        ensures cause { HasShelfCause (all_faults S.shelf_faults G.failed self.old) (all_faults S.shelf_faults G.failed self.new) result }
        ensures call { IsGuarded G.fails G.after S.shelf_faults self.old self.new result }
    {
        if self.guard.next_fails() {
            return Err(ShelfFail::Failed);
        }
        self.inner.read_at(name, at, buf)
    }

    fn stage(&mut self, piece: &[u8]) -> Result<(), ShelfFail>
        ensures whole { OnOk result
            (S.staged self.new.inner ≡ with_piece (S.staged self.old.inner) piece.now) }
        ensures front { OnErr result (StagesFront
            (S.staged self.old.inner) (S.staged self.new.inner) piece.now) }
        ensures files { S.files self.new.inner ≡ S.files self.old.inner }
        ensures cause { HasShelfCause (all_faults S.shelf_faults G.failed self.old) (all_faults S.shelf_faults G.failed self.new) result }
        ensures call { IsGuarded G.fails G.after S.shelf_faults self.old self.new result }
    {
        if self.guard.next_fails() {
            return Err(ShelfFail::Failed);
        }
        self.inner.stage(piece)
    }

    fn unstage(&mut self)
        ensures staged { S.staged self.new.inner ≡ emptied (S.staged self.old.inner) }
        ensures files { S.files self.new.inner ≡ S.files self.old.inner }
        ensures later { all_faults S.shelf_faults G.failed self.old ≤ all_faults S.shelf_faults G.failed self.new }

        // It can not fail, and is not counted as a call.
        ensures guard { self.new.guard ≡ self.old.guard }
    {
        self.inner.unstage();
    }

    fn commit(&mut self, name: &FileName) -> Result<(), ShelfFail>
        ensures put { OnOk result (Commits
            (S.files self.old.inner) (S.staged self.old.inner) name.now (S.files self.new.inner)) }
        ensures emptied { OnOk result
            (S.staged self.new.inner ≡ emptied (S.staged self.old.inner)) }
        ensures refused { IfErr result (λ fail. CommitRefused fail
            (S.files self.old.inner) (S.staged self.old.inner) name.now
            (S.files self.new.inner) (S.staged self.new.inner)) }
        ensures cause { HasShelfCause (all_faults S.shelf_faults G.failed self.old) (all_faults S.shelf_faults G.failed self.new) result }
        ensures call { IsGuarded G.fails G.after S.shelf_faults self.old self.new result }
    {
        if self.guard.next_fails() {
            return Err(ShelfFail::Failed);
        }
        self.inner.commit(name)
    }

    fn remove(&mut self, name: &FileName) -> Result<(), ShelfFail>
        ensures removed { OnOk result
            (S.files self.new.inner ≡ told_without name.now (S.files self.old.inner)) }
        ensures refused { IfErr result (λ fail. RemoveRefused fail name.now
            (S.files self.old.inner) (S.files self.new.inner)) }
        ensures staged { S.staged self.new.inner ≡ S.staged self.old.inner }
        ensures cause { HasShelfCause (all_faults S.shelf_faults G.failed self.old) (all_faults S.shelf_faults G.failed self.new) result }
        ensures call { IsGuarded G.fails G.after S.shelf_faults self.old self.new result }
    {
        if self.guard.next_fails() {
            return Err(ShelfFail::Failed);
        }
        self.inner.remove(name)
    }
}

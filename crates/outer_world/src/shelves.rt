//! Where files are kept.

ghost use Rattle.std.specs.Prelude.{◌≡◌, ◌≤◌, List, ℕ, Option, IfOk, IfErr, OnOk, OnErr};
ghost use Rattle.std.specs.Io.{ReadsAtMost};

use crate::names::FileName;
use std::alloc::{AllocError, Global};

/// Why a call of a shelf was refused.
#[derive(Clone, Copy, Debug, PartialEq, Eq)]
pub enum ShelfFail {
    /// The shelf failed. Its count has risen.
    Failed,
    /// There was no memory.
    Mem,
}

impl From<AllocError> for ShelfFail {
    ghost use Rattle.std.specs.Prelude.{◌≡◌};
    ghost use Rattle.outer_world.specs.declared.shelves.ShelfFail.TheVariants.{Mem};

    ghost from_gives = { λ _ fail. fail ≡ Mem };

    fn from(_: AllocError) -> ShelfFail {
        ShelfFail::Mem
    }
}

/// Where files are kept, each under its whole name. A new file is staged piece by piece, and then
/// put in place at once: a stop loses the staged text and nothing else.
pub trait Shelf {
    ghost use Rattle.outer_world.specs.Files.{Files};
    ghost use Rattle.outer_world.specs.Shelves.{CommitRefused, Commits, HasShelfCause, HasSize, Lists, ReadsFile, RemoveRefused, StagesFront, emptied, told_without, with_piece};

    /// The files, in the order of their names, where they are told.
    ghost files: { Self → Option Files };

    /// The text that was staged, where it is told.
    ghost staged: { Self → Option (List ℕ) };

    /// How often a call has failed.
    ghost shelf_faults: { Self → ℕ };

    /// Adds the whole names of a folder's files, sorted by their bytes. The folder is given without
    /// a `/` at its end. After a refusal the list is as before.
    fn list(
        &mut self,
        alloc: Global,
        folder: &str,
        out: &mut Vec<FileName>,
    ) -> Result<(), ShelfFail>
        ensures names { OnOk result (Lists (files self.old) folder.now out.old.items out.new.items) }
        ensures unlisted { OnErr result (out.new.items ≡ out.old.items) }
        ensures files { files self.new ≡ files self.old }
        ensures staged { staged self.new ≡ staged self.old }
        ensures cause { HasShelfCause (shelf_faults self.old) (shelf_faults self.new) result };

    /// The length of a file in bytes, or none where it is not there.
    fn size(&mut self, name: &FileName) -> Result<Option<u64>, ShelfFail>
        ensures size { IfOk result (HasSize (files self.old) name.now) }
        ensures files { files self.new ≡ files self.old }
        ensures staged { staged self.new ≡ staged self.old }
        ensures cause { HasShelfCause (shelf_faults self.old) (shelf_faults self.new) result };

    /// Fills the front of the buffer with bytes of a file, from a place on. It gives none at the end,
    /// past it, and of a file that is not there, and else at least one into a buffer with room.
    fn read_at(&mut self, name: &FileName, at: u64, buf: &mut [u8]) -> Result<usize, ShelfFail>
        ensures bound { ReadsAtMost result buf.new }
        ensures bytes { IfOk result (λ count. ReadsFile (files self.old) name.now at count buf.new) }
        ensures files { files self.new ≡ files self.old }
        ensures staged { staged self.new ≡ staged self.old }
        ensures cause { HasShelfCause (shelf_faults self.old) (shelf_faults self.new) result };

    /// Adds a piece to the staged text. After a refusal a front of it may be staged.
    fn stage(&mut self, piece: &[u8]) -> Result<(), ShelfFail>
        ensures whole { OnOk result (staged self.new ≡ with_piece (staged self.old) piece.now) }
        ensures front { OnErr result (StagesFront (staged self.old) (staged self.new) piece.now) }
        ensures files { files self.new ≡ files self.old }
        ensures cause { HasShelfCause (shelf_faults self.old) (shelf_faults self.new) result };

    /// Gives the staged text up.
    fn unstage(&mut self)
        ensures staged { staged self.new ≡ emptied (staged self.old) }
        ensures files { files self.new ≡ files self.old }
        ensures later { shelf_faults self.old ≤ shelf_faults self.new };

    /// Puts the staged text in place of the named file, at once. Where it failed the file is the old
    /// one or the new one, and no other has changed.
    fn commit(&mut self, name: &FileName) -> Result<(), ShelfFail>
        ensures put { OnOk result (Commits (files self.old) (staged self.old) name.now (files self.new)) }
        ensures emptied { OnOk result (staged self.new ≡ emptied (staged self.old)) }
        ensures refused { IfErr result (λ fail. CommitRefused fail (files self.old) (staged self.old) name.now (files self.new) (staged self.new)) }
        ensures cause { HasShelfCause (shelf_faults self.old) (shelf_faults self.new) result };

    /// Takes a file away. Where it failed the file is there or not, and no other has changed.
    fn remove(&mut self, name: &FileName) -> Result<(), ShelfFail>
        ensures removed { OnOk result (files self.new ≡ told_without name.now (files self.old)) }
        ensures refused { IfErr result (λ fail. RemoveRefused fail name.now (files self.old) (files self.new)) }
        ensures staged { staged self.new ≡ staged self.old }
        ensures cause { HasShelfCause (shelf_faults self.old) (shelf_faults self.new) result };
}

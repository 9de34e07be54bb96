//! The files of `one/` that a reader put there.

ghost use Rattle.std.specs.Prelude.{◌≡◌, [], not, IfNone, IfOk, IfSome, OnErr, OnOk, slice_get};
ghost use Rattle.std.specs.List.{IsDistinct};
ghost use Rattle.std.specs.Option.{option_copied};
ghost use Rattle.block_reader.specs.Own.{has_own, own_of, same_own, with_own, without_own};

use block_record::Id;
use indexmap::{Equivalent, IndexSet};
use outer_world::FileName;
use std::alloc::{AllocError, Global};
use std::hash::{Hash, Hasher};
use std::marker::Model;

/// A file of `one/` by its whole name, and the number and the id of the block that it holds. Two are
/// equal where their names are.
#[derive(Debug, Drop)]
pub struct OwnFile {
    pub name: FileName,
    pub num: u64,
    pub id: Id,
}

impl PartialEq for OwnFile {
    ghost use Rattle.block_reader.specs.Own.{same_own, same_own_partial_equiv};

    ghost eq = { same_own };

    ghost laws = { same_own_partial_equiv };

    fn eq(&self, other: &OwnFile) -> bool {
        self.name == other.name
    }
}

impl Eq for OwnFile {
    ghost use Rattle.block_reader.specs.Own.{same_own_equiv};

    ghost laws = { same_own_equiv };
}

impl Hash for OwnFile {
    ghost use Rattle.std.specs.Prelude.{[], ◌∷◌};
    ghost use Rattle.block_reader.specs.Own.{same_own_hash};

    ghost hash_input = { λ file. file.name ∷ [] };

    ghost respects_eq = { same_own_hash.fed };

    /// The whole name in one write.
    fn hash<H: Hasher>(&self, state: &mut H) {
        state.write(self.name.as_bytes());
    }
}

/// A name, to find its file by.
#[derive(Clone, Copy, PartialEq, Eq)]
struct Named<'a> {
    name: &'a FileName,
}

impl<'a> Hash for Named<'a> {
    ghost use Rattle.std.specs.Prelude.{[], ◌∷◌};
    ghost use Rattle.block_reader.specs.Own.{same_name_hash};

    ghost hash_input = { λ named. named.name.now ∷ [] };

    ghost respects_eq = { λ a b. same_name_hash.fed a.name.now b.name.now };

    fn hash<H: Hasher>(&self, state: &mut H) {
        state.write(self.name.as_bytes());
    }
}

impl<'a> Equivalent<OwnFile> for Named<'a> {
    ghost use Rattle.std.specs.Str.{bytes_eq};
    ghost use Rattle.std.specs.Cmp.Lexicographic.{nat_list_eq_equiv};
    ghost use Rattle.block_reader.specs.Own.{same_name_hash};

    ghost equivalent = { λ named file. bytes_eq named.name.now file.name };

    ghost respects_hash = { λ named file. same_name_hash.fed named.name.now file.name };

    ghost respects_eq = { λ named x y. nat_list_eq_equiv.congr named.name.now x.name y.name };

    fn equivalent(&self, file: &OwnFile) -> bool {
        *self.name == file.name
    }
}

/// The files of `one/` that were written or found there by a reader, and whose removal was not tried
/// since. Contracts see them as a list, the oldest first, each name once.
#[derive(Drop)]
pub struct OwnFiles {
    files: IndexSet<OwnFile>,
}

impl Model for OwnFiles {
    ghost use Rattle.std.specs.Prelude.{List};
    ghost use Rattle.block_reader.specs.declared.own.OwnFile.{OwnFile as Own};

    ghost Value = { List Own };

    ghost view = { λ own. own.files.keys };
}

impl OwnFiles {
    /// No file.
    pub fn new(alloc: Global) -> OwnFiles
        ensures { result ≡ [] }
    {
        OwnFiles {
            files: IndexSet::new(alloc),
        }
    }

    /// How many there are. No two have one name.
    pub fn len(&self) -> usize
        ensures { IsDistinct same_own self.now }
    {
        self.files.len()
    }

    /// Adds a file, which comes last, and tells that it did. One that is there keeps its place.
    pub(crate) fn note(&mut self, name: &FileName, num: u64, id: &Id) -> Result<bool, AllocError>
        ensures ok { OnOk result (self.new ≡ with_own (own_of name.now num id.now) self.old) }
        ensures added { IfOk result (λ added. added ≡ not (has_own self.old name.now)) }
        ensures err { OnErr result (self.new ≡ self.old) }
    {
        let file = OwnFile {
            name: name.clone()?,
            num,
            id: id.clone()?,
        };
        let added = self.files.insert(file)?;
        Ok(added)
    }

    /// The file at a place.
    pub(crate) fn get(&self, at: usize) -> Option<&OwnFile>
        ensures { option_copied result ≡ slice_get self.now at }
    {
        self.files.get_index(at)
    }

    /// Takes out the file at a place, where there is one.
    pub(crate) fn remove_at(&mut self, at: usize) -> Option<OwnFile>
        ensures file { result ≡ slice_get self.old at }
        ensures without { IfSome result (λ file. self.new ≡ without_own file.name self.old) }
        ensures none { IfNone result (self.new ≡ self.old) }
    {
        let _ = self.files.len();
        self.files.shift_remove_index(at)
    }

    /// Takes out the file of this name, where there is one.
    pub(crate) fn forget(&mut self, name: &FileName)
        ensures { self.new ≡ without_own name.now self.old }
    {
        let _ = self.files.len();
        let _ = self.files.shift_remove(Named { name });
    }
}

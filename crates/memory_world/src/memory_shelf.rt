//! A shelf in memory, which never fails.

ghost use Rattle.std.specs.Prelude.{◌≡◌};
ghost use Rattle.std.specs.Option.{option_copied};
ghost use Rattle.outer_world.specs.Files.{file_at};
ghost use Rattle.memory_world.specs.ShelfStates.{bare_shelf};

use crate::stored_files::{FileMap, FileText, copy_from, names_in, put_file, take_away, text_of};
use outer_world::{FileName, Shelf, ShelfFail};
use std::alloc::Global;
use std::marker::Model;
use std::mem;

/// A shelf in memory. It never fails, and tells its files and what is staged. A file is found, put in
/// place or taken away in a number of comparisons that grows as the logarithm of the number of files.
#[derive(Drop)]
pub struct MemoryShelf {
    alloc: Global,
    files: FileMap,
    staged: FileText,
}

impl Model for MemoryShelf {
    ghost use Rattle.outer_world.specs.Files.{AreInOrder, names_of};
    ghost use Rattle.memory_world.specs.ShelfStates.{ShelfState};

    ghost Value = { ShelfState };

    ghost view = { λ s. record { files = s.files.entries; staged = s.staged } };

    ghost invariant = { λ s. AreInOrder (names_of s.files.entries) };
}

impl MemoryShelf {
    /// A shelf without files.
    pub fn new(alloc: Global) -> Self
        ensures { result ≡ bare_shelf }
    {
        MemoryShelf {
            alloc,
            files: FileMap::new(alloc),
            staged: FileText::empty(alloc),
        }
    }

    /// The bytes of a file, or none where it is not there.
    pub fn file(&self, name: &FileName) -> Option<&[u8]>
        ensures { option_copied result ≡ file_at name.now self.now.files }
    {
        text_of(&self.files, name)
    }
}

impl Shelf for MemoryShelf {
    ghost use Rattle.std.specs.Prelude.{Some};

    ghost files = { λ s. Some s.files };

    ghost staged = { λ s. Some s.staged };

    ghost shelf_faults = { λ _. 0 };

    fn list(
        &mut self,
        alloc: Global,
        folder: &str,
        out: &mut Vec<FileName>,
    ) -> Result<(), ShelfFail> {
        let mut names = names_in(alloc, &self.files, folder)?;
        out.append(&mut names)?;
        Ok(())
    }

    fn size(&mut self, name: &FileName) -> Result<Option<u64>, ShelfFail> {
        Ok(text_of(&self.files, name).map(|text| text.len() as u64))
    }

    fn read_at(&mut self, name: &FileName, at: u64, buf: &mut [u8]) -> Result<usize, ShelfFail> {
        let text = text_of(&self.files, name).unwrap_or(&[]);
        Ok(copy_from(text, at, buf))
    }

    fn stage(&mut self, piece: &[u8]) -> Result<(), ShelfFail> {
        self.staged.extend(piece)?;
        Ok(())
    }

    fn unstage(&mut self) {
        self.staged = FileText::empty(self.alloc);
    }

    fn commit(&mut self, name: &FileName) -> Result<(), ShelfFail> {
        let name = FileName::new(self.alloc, name.as_bytes())?;
        let text = mem::replace(&mut self.staged, FileText::empty(self.alloc));
        match put_file(&mut self.files, name, text) {
            Ok(()) => Ok(()),
            Err(text) => {
                self.staged = text;
                Err(ShelfFail::Mem)
            }
        }
    }

    fn remove(&mut self, name: &FileName) -> Result<(), ShelfFail> {
        take_away(&mut self.files, name);
        Ok(())
    }
}

//! The shelf over a folder of the disk.

ghost use Rattle.std.specs.Prelude.{None};

use crate::disk::root_of;
use crate::faults::counted;
use crate::folder::Folder;
use outer_world::{FileName, Shelf, ShelfFail};
use std::alloc::{AllocError, Global};
use std::fs::Files;

/// A shelf over a folder of the disk. It tells no contents, and counts its failures.
#[derive(Drop)]
pub struct FolderShelf<R: Files + AllocGlobal + Clone + Drop> {
    folder: Folder<R>,
    faults: u64,
}

impl<R: Files + AllocGlobal + Clone + Drop> FolderShelf<R> {
    /// A shelf over the folder of this path. It touches nothing yet. Of the shelves that a process has on
    /// one folder at a time, each is given a key of its own: it stages under `stage.KEY`.
    pub fn new(rt: R, path: &str, key: u64) -> Result<Self, AllocError> {
        let root = String::from_str(rt.alloc(), root_of(path))?;
        Ok(FolderShelf {
            folder: Folder::new(rt, root, key),
            faults: 0,
        })
    }
}

impl<R: Files + AllocGlobal + Clone + Drop> Shelf for FolderShelf<R> {
    ghost files = { λ _. None };

    ghost staged = { λ _. None };

    ghost shelf_faults = { λ s. s.faults };

    fn list(
        &mut self,
        alloc: Global,
        folder: &str,
        out: &mut Vec<FileName>,
    ) -> Result<(), ShelfFail> {
        let answer = self.folder.list(alloc, folder, out);
        counted(&mut self.faults, answer)
    }

    fn size(&mut self, name: &FileName) -> Result<Option<u64>, ShelfFail> {
        let answer = self.folder.size(name);
        counted(&mut self.faults, answer)
    }

    fn read_at(&mut self, name: &FileName, at: u64, buf: &mut [u8]) -> Result<usize, ShelfFail> {
        let answer = self.folder.read_at(name, at, buf);
        counted(&mut self.faults, answer)
    }

    fn stage(&mut self, piece: &[u8]) -> Result<(), ShelfFail> {
        let answer = self.folder.stage(piece);
        counted(&mut self.faults, answer)
    }

    fn unstage(&mut self) {
        self.folder.unstage();
    }

    fn commit(&mut self, name: &FileName) -> Result<(), ShelfFail> {
        let answer = self.folder.commit(name);
        counted(&mut self.faults, answer)
    }

    fn remove(&mut self, name: &FileName) -> Result<(), ShelfFail> {
        let answer = self.folder.remove(name);
        counted(&mut self.faults, answer)
    }
}

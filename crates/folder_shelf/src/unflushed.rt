//! Folders with changes that may not be on the disk yet.

use crate::disk::flush_folder;
use std::alloc::{AllocError, Global};
use std::fs::Files;
use std::io;

/// The paths of folders that files were put into or taken from since the folder was flushed.
#[derive(Drop)]
pub(crate) struct Unflushed {
    folders: Vec<String>,
}

impl Unflushed {
    pub(crate) fn new(alloc: Global) -> Self {
        Unflushed {
            folders: Vec::new(alloc),
        }
    }

    /// Adds a folder, once.
    pub(crate) fn note(&mut self, folder: &String) -> Result<(), AllocError> {
        if !self.folders.contains(folder) {
            self.folders.push(folder.clone()?)?;
        }
        Ok(())
    }

    /// Brings the changes of all these folders to the disk.
    pub(crate) fn flush<R: Files>(&mut self, rt: &R) -> io::Result<()> {
        for folder in &self.folders {
            flush_folder(rt, folder.as_str())?;
        }
        self.folders.clear();
        Ok(())
    }
}

//! The lock that keeps a folder for one process.

use crate::disk::{flush_folder, make_folder, parent_of, root_of};
use std::alloc::{AllocError, Global};
use std::fs::{DirEntry, File, Files, TryLockError};
use std::{fs, io};

/// Why a folder was not locked.
#[derive(Clone, Copy, Debug, PartialEq, Eq)]
pub enum LockFail {
    /// Another process has the folder.
    Taken,
    /// The folder could not be made, opened or locked.
    Failed,
    /// There was no memory.
    Mem,
}

impl From<AllocError> for LockFail {
    fn from(_: AllocError) -> LockFail {
        LockFail::Mem
    }
}

impl From<TryLockError> for LockFail {
    fn from(error: TryLockError) -> LockFail {
        match error {
            TryLockError::WouldBlock => LockFail::Taken,
            TryLockError::Error(_) => LockFail::Failed,
        }
    }
}

/// A folder that no other process may lock until this is dropped or the process ends.
#[derive(Drop)]
pub struct FolderLock {
    root: String,
    _handle: File,
}

impl FolderLock {
    /// Locks the folder of this path, which is made where it is not there. The lock is one on the folder
    /// itself, and no child of the process inherits it.
    pub fn take<R: Files<File = File> + AllocGlobal>(
        rt: &R,
        path: &str,
    ) -> Result<FolderLock, LockFail> {
        let root = String::from_str(rt.alloc(), root_of(path))?;
        let Ok(handle) = open_folder(rt, root.as_str()) else {
            return Err(LockFail::Failed);
        };
        handle.try_lock()?;
        Ok(FolderLock {
            root,
            _handle: handle,
        })
    }

    /// Takes away the stages that stops left, and brings the changes of all folders of the shelf to the
    /// disk. It is called once, before anything is staged.
    pub fn settle<R: Files + AllocGlobal + Clone + Drop>(&self, rt: &R) -> io::Result<()> {
        for entry in fs::read_dir(rt, self.root.as_str())? {
            settle_entry(rt, &entry?)?;
        }
        flush_folder(rt, self.root.as_str())?;
        flush_folder(rt, parent_of(self.root.as_str()))
    }
}

fn open_folder<R: Files<File = File>>(rt: &R, path: &str) -> io::Result<File> {
    make_folder(rt, path)?;
    fs::open(rt, path)
}

/// Takes a stage away, and flushes a folder.
fn settle_entry<R: Files>(rt: &R, entry: &DirEntry<R, Global>) -> io::Result<()> {
    if is_stage(entry.file_name()) {
        return fs::remove_file(rt, entry.path());
    }
    if entry.file_type()?.is_dir() {
        return flush_folder(rt, entry.path().as_str());
    }
    Ok(())
}

/// Whether this is the name of a stage: `stage.` and a key.
fn is_stage(name: &str) -> bool {
    match name.strip_prefix("stage.") {
        Some(key) => !key.is_empty() && key.as_bytes().iter().all(|byte| byte.is_ascii_digit()),
        None => false,
    }
}

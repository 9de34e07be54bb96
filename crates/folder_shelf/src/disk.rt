//! Folders that are made, and changes of a folder that are kept.

use std::fs::{Files, OpenFile};
use std::path::Path;
use std::{fs, io};

/// Brings the changes of a folder to the disk: the files that were put into it or taken away. A folder
/// that is not there has none.
pub(crate) fn flush_folder<R: Files>(rt: &R, folder: &str) -> io::Result<()> {
    match fs::open(rt, folder) {
        Ok(handle) => handle.sync_all(),
        Err(error) if error.kind() == io::ErrorKind::NotFound => Ok(()),
        Err(error) => Err(error),
    }
}

/// Makes a folder where it is not there, and brings it to the disk. The folder that it stands in has to
/// be there.
pub(crate) fn make_folder<R: Files>(rt: &R, folder: &str) -> io::Result<()> {
    match fs::create_dir(rt, folder) {
        Ok(()) => flush_folder(rt, parent_of(folder)),
        Err(error) if error.kind() == io::ErrorKind::AlreadyExists => Ok(()),
        Err(error) => Err(error),
    }
}

/// The path of a shelf's folder: an empty one is the current folder.
pub(crate) fn root_of(path: &str) -> &str {
    if path.is_empty() { "." } else { path }
}

/// The folder that this one stands in.
pub(crate) fn parent_of(folder: &str) -> &str {
    match Path::new(folder).parent() {
        Some(parent) if !parent.as_str().is_empty() => parent.as_str(),
        _ => ".",
    }
}

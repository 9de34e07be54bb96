//! The file that a text is staged in.

use crate::disk::make_folder;
use crate::faults::Fault;
use crate::places::Place;
use std::fs::{File, Files, OpenFile};
use std::io::Write;
use std::{fs, io};

/// A file right in the shelf's folder that a text is staged in, until it is put in place. It is taken
/// away where it is dropped.
pub(crate) struct StageFile<R: Files + Drop> {
    rt: R,
    path: String,
    file: R::File,
}

impl<R: Files + Drop> Drop for StageFile<R> {
    fn drop(self) {
        let StageFile { rt, path, file: _ } = self;
        let _ = fs::remove_file(&rt, path.as_str());
    }
}

impl<R: Files + Drop> StageFile<R> {
    /// Closes a stage that was put in place, and takes nothing away.
    fn close(self) {
        let StageFile {
            rt: _,
            path: _,
            file: _,
        } = self;
    }
}

impl<R: Files + AllocGlobal + Clone + Drop> StageFile<R> {
    /// An empty stage. The shelf's folder is made where it is not there.
    pub(crate) fn begin(rt: &R, root: &str, key: u64) -> Result<Self, Fault> {
        let path = format!(in rt.alloc(); "{root}/stage.{key}")?;
        let rt = rt.clone()?;
        let file = create_anew(&rt, root, path.as_str())?;
        Ok(StageFile { rt, path, file })
    }

    pub(crate) fn add(&mut self, piece: &[u8]) -> Result<(), Fault> {
        self.file.write_all(piece)?;
        Ok(())
    }

    /// Brings the text to the disk. Where that fails the stage is given up, since the system may have
    /// dropped what it could not write, and another try would not tell.
    pub(crate) fn flush(self) -> io::Result<FlushedStage<R>> {
        self.file.sync_all()?;
        Ok(FlushedStage { stage: self })
    }
}

/// A stage whose text is on the disk.
#[derive(Drop)]
pub(crate) struct FlushedStage<R: Files + Drop> {
    stage: StageFile<R>,
}

impl<R: Files + Drop> FlushedStage<R> {
    /// Puts the text in place of a file at once. The folder is made where it is not there.
    pub(crate) fn put(self, place: &Place) -> io::Result<()> {
        let FlushedStage { stage } = self;
        rename_into(&stage.rt, stage.path.as_str(), place)?;
        stage.close();
        Ok(())
    }
}

fn rename_into<R: Files>(rt: &R, path: &str, place: &Place) -> io::Result<()> {
    match fs::rename(rt, path, place.file.as_str()) {
        Err(error) if error.kind() == io::ErrorKind::NotFound => {
            make_folder(rt, place.folder.as_str())?;
            fs::rename(rt, path, place.file.as_str())
        }
        answer => answer,
    }
}

/// A new file of this path. One that a stop left there is taken away, and not written to: after a stop of
/// the machine it might be one with a file that was put in place.
fn create_anew<R: Files>(rt: &R, root: &str, path: &str) -> io::Result<R::File> {
    match File::create_new(rt, path) {
        Err(error) if error.kind() == io::ErrorKind::NotFound => {
            make_folder(rt, root)?;
            File::create_new(rt, path)
        }
        Err(error) if error.kind() == io::ErrorKind::AlreadyExists => {
            fs::remove_file(rt, path)?;
            File::create_new(rt, path)
        }
        answer => answer,
    }
}

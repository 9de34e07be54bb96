//! The work of a shelf on its folder.

ghost use Rattle.std.specs.Prelude.{◌≡◌, IfOk, OnOk, OnErr, None};
ghost use Rattle.std.specs.Io.{ReadsAtMost};
ghost use Rattle.outer_world.specs.Shelves.{Lists};
ghost use Rattle.folder_shelf.specs.Names.{AreFoundIn};

use crate::faults::Fault;
use crate::names::{is_part, put_in_order, whole_name};
use crate::open_file::ReadFile;
use crate::places::place_of;
use crate::stage_file::StageFile;
use crate::unflushed::Unflushed;
use outer_world::FileName;
use std::alloc::Global;
use std::fs::{DirEntry, Files};
use std::{fs, io};

/// A folder with the files of a shelf, each in a folder of its own inside it.
#[derive(Drop)]
pub(crate) struct Folder<R: Files + AllocGlobal + Clone + Drop> {
    rt: R,
    root: String,
    /// The number in the name of this shelf's stage.
    key: u64,
    stage: Option<StageFile<R>>,
    /// The file that was read last.
    open: Option<ReadFile<R::File>>,
    unflushed: Unflushed,
}

impl<R: Files + AllocGlobal + Clone + Drop> Folder<R> {
    pub(crate) fn new(rt: R, root: String, key: u64) -> Self {
        let unflushed = Unflushed::new(rt.alloc());
        Folder {
            rt,
            root,
            key,
            stage: None,
            open: None,
            unflushed,
        }
    }

    pub(crate) fn list(
        &self,
        alloc: Global,
        folder: &str,
        out: &mut Vec<FileName>,
    ) -> Result<(), Fault>
        ensures names { OnOk result (Lists None folder.now out.old.items out.new.items) }
        ensures unlisted { OnErr result (out.new.items ≡ out.old.items) }
    {
        let mut names = self.names_in(alloc, folder)?;
        put_in_order(&mut names);
        out.append(&mut names)?;
        Ok(())
    }

    /// The names of a folder's files, as the system gives them. A folder that is not there has none.
    fn names_in(&self, alloc: Global, folder: &str) -> Result<Vec<FileName>, Fault>
        ensures { IfOk result (λ names. AreFoundIn folder.now names.items) }
    {
        let mut names = Vec::new(alloc);
        if !is_part(folder) {
            return Err(Fault::Failed);
        }
        let path = format!(in alloc; "{}/{folder}", self.root.as_str())?;
        let entries = match fs::read_dir(&self.rt, path.as_str()) {
            Ok(entries) => entries,
            Err(error) if error.kind() == io::ErrorKind::NotFound => return Ok(names),
            Err(error) => return Err(error.into()),
        };
        for entry in entries {
            let entry = entry?;
            if is_file(&self.rt, &entry)? {
                names.push(whole_name(alloc, folder, entry.file_name())?)?;
            }
        }
        Ok(names)
    }

    pub(crate) fn size(&mut self, name: &FileName) -> Result<Option<u64>, Fault> {
        self.open(name)?;
        Ok(self.open.as_ref().map(|file| file.len()))
    }

    pub(crate) fn read_at(
        &mut self,
        name: &FileName,
        at: u64,
        buf: &mut [u8],
    ) -> Result<usize, Fault>
        ensures bound { ReadsAtMost result buf.new }
    {
        if !self.has_open(name) {
            self.open(name)?;
        }
        match &mut self.open {
            Some(file) => Ok(file.read_at(at, buf)?),
            None => Ok(0),
        }
    }

    fn has_open(&self, name: &FileName) -> bool {
        match &self.open {
            Some(file) => file.is_of(name),
            None => false,
        }
    }

    /// Opens a file to be read, where it is there. Its length and its bytes are then those of one file,
    /// also where another process puts a new one in its place.
    fn open(&mut self, name: &FileName) -> Result<(), Fault> {
        self.open = None;
        let place = place_of(self.rt.alloc(), self.root.as_str(), name)?;
        self.open = ReadFile::open(&self.rt, name.clone()?, place.file.as_str())?;
        Ok(())
    }

    pub(crate) fn stage(&mut self, piece: &[u8]) -> Result<(), Fault> {
        let mut stage = self.take_stage()?;
        let answer = stage.add(piece);
        self.stage = Some(stage);
        answer
    }

    /// What is staged, or an empty stage.
    fn take_stage(&mut self) -> Result<StageFile<R>, Fault> {
        match self.stage.take() {
            Some(stage) => Ok(stage),
            None => StageFile::begin(&self.rt, self.root.as_str(), self.key),
        }
    }

    pub(crate) fn unstage(&mut self) {
        self.stage = None;
    }

    pub(crate) fn commit(&mut self, name: &FileName) -> Result<(), Fault> {
        let place = place_of(self.rt.alloc(), self.root.as_str(), name)?;
        self.open = None;
        self.unflushed.flush(&self.rt)?;
        self.unflushed.note(&place.folder)?;
        let stage = self.take_stage()?;
        let put = stage.flush().and_then(|stage| stage.put(&place));
        if put.is_err() {
            return Err(Fault::Failed);
        }
        self.unflushed.flush(&self.rt).map_err(|_| Fault::Failed)
    }

    pub(crate) fn remove(&mut self, name: &FileName) -> Result<(), Fault> {
        let place = place_of(self.rt.alloc(), self.root.as_str(), name)?;
        self.open = None;
        self.unflushed.note(&place.folder)?;
        match fs::remove_file(&self.rt, place.file.as_str()) {
            Err(error) if error.kind() != io::ErrorKind::NotFound => Err(error.into()),
            _ => Ok(()),
        }
    }
}

/// Whether this is a file, and no folder. One that is gone by now is none.
fn is_file<R: Files>(rt: &R, entry: &DirEntry<R, Global>) -> io::Result<bool> {
    match fs::metadata(rt, entry.path()) {
        Ok(found) => Ok(found.is_file()),
        Err(error) if error.kind() == io::ErrorKind::NotFound => Ok(false),
        Err(error) => Err(error),
    }
}

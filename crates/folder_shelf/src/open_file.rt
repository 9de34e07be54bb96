//! The file that was read last.

ghost use Rattle.std.specs.Io.{ReadsAtMost};

use outer_world::FileName;
use std::fs::{Files, OpenFile};
use std::io::{Read, Seek, SeekFrom};
use std::{fs, io};

/// A file that is open to be read. Files of a shelf are put in place whole, so its length stays.
#[derive(Drop)]
pub(crate) struct ReadFile<F: Read + Seek + OpenFile + Drop> {
    name: FileName,
    file: F,
    len: u64,
    /// Where the next read begins, where that is known.
    place: Option<u64>,
}

impl<F: Read + Seek + OpenFile + Drop> ReadFile<F> {
    /// Opens the file of this path, where it is there. A folder is no file.
    pub(crate) fn open<R: Files<File = F>>(
        rt: &R,
        name: FileName,
        path: &str,
    ) -> io::Result<Option<Self>> {
        let file = match fs::open(rt, path) {
            Ok(file) => file,
            Err(error) if error.kind() == io::ErrorKind::NotFound => return Ok(None),
            Err(error) => return Err(error),
        };
        let found = file.metadata()?;
        if !found.is_file() {
            return Ok(None);
        }
        Ok(Some(ReadFile {
            name,
            file,
            len: found.len(),
            place: Some(0),
        }))
    }

    pub(crate) fn is_of(&self, name: &FileName) -> bool {
        self.name == *name
    }

    pub(crate) fn len(&self) -> u64 {
        self.len
    }

    /// Fills the front of the buffer with bytes from a place on: none at the end or past it, and else at
    /// least one into a buffer with room. A file that has become shorter is a failure.
    pub(crate) fn read_at(&mut self, at: u64, buf: &mut [u8]) -> io::Result<usize>
        ensures bound { ReadsAtMost result buf.new }
    {
        if at >= self.len || buf.is_empty() {
            return Ok(0);
        }
        if self.place != Some(at) {
            self.file.seek(SeekFrom::Start(at))?;
        }
        self.place = None;
        let count = read_some(&mut self.file, buf)?;
        if count == 0 {
            return Err(io::ErrorKind::UnexpectedEof.into());
        }
        self.place = at.checked_add(count as u64);
        Ok(count)
    }
}

/// Reads once, and again where a signal came between.
fn read_some<F: Read>(file: &mut F, buf: &mut [u8]) -> io::Result<usize>
    ensures bound { ReadsAtMost result buf.new }
{
    for _ in 0..u64::MAX {
        match file.read(buf) {
            Err(error) if error.kind() == io::ErrorKind::Interrupted => {}
            answer => return answer,
        }
    }
    Err(io::ErrorKind::Interrupted.into())
}

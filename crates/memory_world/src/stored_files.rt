//! Files kept in a map, in the order of their names.

ghost use Rattle.std.specs.Prelude.{◌≡◌, [], ◌∷◌, ◌++◌, if◌then◌else◌, is_ok, IfOk, IfErr, OnOk, length, drop, min};
ghost use Rattle.std.specs.Option.{option_copied};
ghost use Rattle.outer_world.specs.Files.{AreInOrder, file_at, is_in, names_in, names_of, with_file, without_file};
ghost use Rattle.outer_world.specs.Shelves.{ReadsText};

use outer_world::FileName;
use std::alloc::{AllocError, Global};
use std::collections::BTreeMap;
use std::marker::Model;

/// The bytes of a file. Contracts see them as a list.
#[derive(Drop)]
pub struct FileText {
    bytes: Vec<u8>,
}

impl Model for FileText {
    ghost use Rattle.std.specs.Prelude.{List, ℕ};

    ghost Value = { List ℕ };

    ghost view = { λ t. t.bytes.items };
}

impl FileText {
    pub fn empty(alloc: Global) -> FileText
        ensures { result ≡ [] }
    {
        FileText {
            bytes: Vec::new(alloc),
        }
    }

    pub fn as_slice(&self) -> &[u8]
        ensures { result.now ≡ self.now }
    {
        self.bytes.as_slice()
    }

    /// Adds a piece, all of it or nothing.
    pub fn extend(&mut self, piece: &[u8]) -> Result<(), AllocError>
        ensures { self.new ≡ (if is_ok result then self.old ++ piece.now else self.old) }
    {
        self.bytes.extend_from_slice(piece)?;
        Ok(())
    }
}

/// Files by their names.
pub type FileMap = BTreeMap<FileName, FileText>;

/// The bytes of the file of this name.
pub fn text_of<'a>(files: &'a FileMap, name: &FileName) -> Option<&'a [u8]>
    ensures { option_copied result ≡ file_at name.now files.now.entries }
{
    match files.get(name) {
        Some(text) => Some(text.as_slice()),
        None => None,
    }
}

/// Copies the names of a folder's files.
pub fn names_in(alloc: Global, files: &FileMap, folder: &str) -> Result<Vec<FileName>, AllocError>
    ensures { IfOk result (λ names. names.items ≡ names_in folder.now files.now.entries) }
{
    let mut names = Vec::new(alloc);
    for (name, _) in files {
        copy_name_in(folder, name, &mut names)?;
    }
    Ok(names)
}

/// Copies a name to the end of a list, where it is one of the folder.
fn copy_name_in(folder: &str, name: &FileName, names: &mut Vec<FileName>) -> Result<(), AllocError>
    ensures { OnOk result (names.new.items ≡ (if is_in folder.now name.now then names.old.items ++ name.now ∷ [] else names.old.items)) }
{
    if name.is_in(folder) {
        let copy = name.clone()?;
        names.push(copy)?;
    }
    Ok(())
}

/// Copies the bytes of a text from a place on, as many as fit.
pub fn copy_from(text: &[u8], at: u64, buf: &mut [u8]) -> usize
    ensures size { result ≡ min (length buf.old) (length (drop at text.now)) }
    ensures read { ReadsText text.now at result buf.new }
{
    let at = (at as usize).min(text.len());
    let count = buf.len().min(text.len() - at);
    buf[..count].copy_from_slice(&text[at..at + count]);
    count
}

/// Puts a file in place. Where there is no memory it gives the text back.
pub fn put_file(files: &mut FileMap, name: FileName, text: FileText) -> Result<(), FileText>
    ensures put { OnOk result (files.new.entries ≡ with_file name text files.old.entries) }
    ensures kept { IfErr result (λ left. (left ≡ text) × (files.new.entries ≡ files.old.entries)) }
{
    match files.insert(name, text) {
        Ok(_) => Ok(()),
        Err(failed) => {
            let (_, text) = failed.value;
            Err(text)
        }
    }
}

/// Takes a file away.
pub fn take_away(files: &mut FileMap, name: &FileName)
    requires { AreInOrder (names_of files.old.entries) }
    ensures { files.new.entries ≡ without_file name.now files.old.entries }
{
    let _ = files.remove(name);
}

//! The folders whose files hold one block each.

ghost use Rattle.std.specs.Prelude.{◌≡◌, ◌≤◌, IfOk};
ghost use Rattle.outer_world.specs.Shelves.{HasShelfCause};
ghost use Rattle.file_reader.specs.Reading.{HasText};
ghost use Rattle.shelf_check.specs.Folders.{FileAnswers, NamesAnswer, FolderAnswers, folder_text as text_of_folder};

use crate::faults::{LoadFault, with_name};
use crate::singles::check_single;
use block_record::TypeName;
use one_block::Folder;
use outer_world::{FileName, Shelf, ShelfFail, read_file};
use std::alloc::Global;

/// What was read of a folder.
#[derive(Drop)]
pub struct FolderRead {
    /// How many files it has.
    pub files: u64,
    /// The type of the files up to its end, if there are any.
    pub kept: Option<TypeName>,
}

/// Reads all files of a folder, after files of this type.
pub fn check_folder<S: Shelf>(
    alloc: Global,
    shelf: &mut S,
    folder: Folder,
    kept: Option<TypeName>,
) -> Result<FolderRead, LoadFault>
    ensures answer { FolderAnswers folder (S.files shelf.old) kept
        (S.shelf_faults shelf.old) (S.shelf_faults shelf.new) result }
    ensures files { S.files shelf.new ≡ S.files shelf.old }
    ensures staged { S.staged shelf.new ≡ S.staged shelf.old }
    ensures later { S.shelf_faults shelf.old ≤ S.shelf_faults shelf.new }
{
    let mut names = Vec::new(alloc);
    shelf.list(alloc, folder_text(folder), &mut names)?;
    let kept = check_names(alloc, shelf, folder, names.as_slice(), kept)?;
    Ok(FolderRead {
        files: names.len() as u64,
        kept,
    })
}

/// The name of a folder.
pub fn folder_text(folder: Folder) -> &'static str
    ensures { result.now ≡ text_of_folder folder }
{
    match folder {
        Folder::One => "one",
        Folder::Forked => "forked",
    }
}

/// Reads the files of these names one after another, after files of this type.
fn check_names<S: Shelf>(
    alloc: Global,
    shelf: &mut S,
    folder: Folder,
    names: &[FileName],
    kept: Option<TypeName>,
) -> Result<Option<TypeName>, LoadFault>
    ensures answer { NamesAnswer folder (S.files shelf.old) kept names.now
        (S.shelf_faults shelf.old) (S.shelf_faults shelf.new) result }
    ensures files { S.files shelf.new ≡ S.files shelf.old }
    ensures staged { S.staged shelf.new ≡ S.staged shelf.old }
    ensures later { S.shelf_faults shelf.old ≤ S.shelf_faults shelf.new }
{
    let mut last = kept;
    for name in names {
        let block_type = check_file(alloc, shelf, folder, name, &last)?;
        last = Some(block_type);
    }
    Ok(last)
}

/// The type of the file of this name.
fn check_file<S: Shelf>(
    alloc: Global,
    shelf: &mut S,
    folder: Folder,
    name: &FileName,
    kept: &Option<TypeName>,
) -> Result<TypeName, LoadFault>
    ensures answer { FileAnswers folder (S.files shelf.old) kept.now name.now
        (S.shelf_faults shelf.old) (S.shelf_faults shelf.new) result }
    ensures files { S.files shelf.new ≡ S.files shelf.old }
    ensures staged { S.staged shelf.new ≡ S.staged shelf.old }
    ensures later { S.shelf_faults shelf.old ≤ S.shelf_faults shelf.new }
{
    let text = read_text(alloc, shelf, name)?;
    match check_single(alloc, folder, name, text.as_slice(), kept) {
        Ok(block_type) => Ok(block_type),
        Err(fault) => Err(with_name(alloc, name, fault)),
    }
}

/// The bytes of a file. One that is not there has none.
pub fn read_text<S: Shelf>(
    alloc: Global,
    shelf: &mut S,
    name: &FileName,
) -> Result<Vec<u8>, ShelfFail>
    ensures text { IfOk result (λ text. HasText (S.files shelf.old) name.now text.items) }
    ensures files { S.files shelf.new ≡ S.files shelf.old }
    ensures staged { S.staged shelf.new ≡ S.staged shelf.old }
    ensures cause { HasShelfCause (S.shelf_faults shelf.old) (S.shelf_faults shelf.new) result }
{
    match read_file(alloc, shelf, name)? {
        Some(text) => Ok(text),
        None => Ok(Vec::new(alloc)),
    }
}

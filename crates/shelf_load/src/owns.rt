//! The files of `one/`, each read for the slip of its block.

ghost use Rattle.std.specs.Prelude.{◌≡◌, ◌≤◌};
ghost use Rattle.shelf_load.specs.Owns.{IsNamedAs, OwnAnswers, ReadAnswers};

use block_record::Slip;
use one_block::{FileFault, Folder, StoreFault, form_of, read_single};
use outer_world::{FileName, Shelf};
use shelf_check::read_text;
use std::alloc::{AllocError, Global};

/// The slip of the block that a file of `one/` holds.
pub(crate) fn own_slip<S: Shelf>(
    alloc: Global,
    shelf: &mut S,
    name: &FileName,
) -> Result<Slip, StoreFault>
    ensures answer { ReadAnswers (S.files shelf.old) name.now
        (S.shelf_faults shelf.old) (S.shelf_faults shelf.new) result }
    ensures files { S.files shelf.new ≡ S.files shelf.old }
    ensures staged { S.staged shelf.new ≡ S.staged shelf.old }
    ensures later { S.shelf_faults shelf.old ≤ S.shelf_faults shelf.new }
{
    let text = read_text(alloc, shelf, name)?;
    match slip_in(alloc, name, text.as_slice()) {
        Ok(slip) => Ok(slip),
        Err(fault) => Err(with_name(alloc, name, fault)),
    }
}

/// The slip of the one block in a file of `one/`, by its whole name and its text, or where it is bad.
fn slip_in(alloc: Global, name: &FileName, text: &[u8]) -> Result<Slip, FileFault>
    ensures { OwnAnswers name.now text.now result }
{
    match form_of(alloc, Folder::One, name)? {
        Some(form) => {
            let read = read_single(alloc, &form, name, text, &None)?;
            Ok(read.slip)
        }
        None => Err(FileFault::Bad { at: 0 }),
    }
}

/// The refusal of a file of this name. Alone it has no other type.
fn with_name(alloc: Global, name: &FileName, fault: FileFault) -> StoreFault
    ensures { IsNamedAs name.now fault result }
{
    match fault {
        FileFault::Bad { at } => bad_file(alloc, name, at),
        FileFault::OtherType { .. } => StoreFault::Mem,
        FileFault::Mem => StoreFault::Mem,
    }
}

/// The file of this name is bad at this place.
fn bad_file(alloc: Global, name: &FileName, at: u64) -> StoreFault
    ensures { IsNamedAs name.now (FileFault.Bad at) result }
{
    match FileName::new(alloc, name.as_bytes()) {
        Ok(name) => StoreFault::ShelfBad { name, at },
        Err(AllocError) => StoreFault::Mem,
    }
}

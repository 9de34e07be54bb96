//! A file searched for the block with an id.

ghost use Rattle.std.specs.Prelude.{◌≡◌, ◌≤◌, List, ℕ, Option, Some, [], IfErr, IsTrue};
ghost use Rattle.outer_world.specs.Files.{Files};
ghost use Rattle.outer_world.specs.Shelves.{HasSize};
ghost use Rattle.file_reader.specs.Reading.{HasRead};
ghost use Rattle.file_source.specs.Steps.{IsBadAt, IsCausedBy, NextAnswers, SearchAnswers};

use block_record::{Block, Id, RecordFault};
use file_reader::FileReader;
use one_block::{StoreFault, fault_place, read_record};
use outer_world::{FileName, Shelf};
use std::alloc::{AllocError, Global};

/// The first block with this id in a file that is there, of which nothing was read. The reader then
/// stands after it.
pub fn first_under<S: Shelf>(
    alloc: Global,
    shelf: &mut S,
    file: &mut FileReader,
    id: &Id,
) -> Result<Option<Block>, StoreFault>
    requires unread { HasRead (S.files shelf.old) file.old [] [] }
    requires there { (size : ℕ) × HasSize (S.files shelf.old) file.old.name (Some size) }
    ensures answer { SearchAnswers (S.files shelf.old) file.old.name id.now
        (S.shelf_faults shelf.old) (S.shelf_faults shelf.new) result }
    ensures files { S.files shelf.new ≡ S.files shelf.old }
    ensures staged { S.staged shelf.new ≡ S.staged shelf.old }
    ensures later { S.shelf_faults shelf.old ≤ S.shelf_faults shelf.new }
{
    while let Some(block) = next_block(alloc, shelf, file)? {
        file.advance();
        if block.id == *id {
            return Ok(Some(block));
        }
    }
    Ok(None)
}

/// The block whose record stands next in the file, or none where the file has ended whole. The record
/// is not passed over.
pub fn next_block<S: Shelf>(
    alloc: Global,
    shelf: &mut S,
    file: &mut FileReader,
) -> Result<Option<Block>, StoreFault>
    ensures answer { (front : List ℕ) (given : List (List ℕ))
        → HasRead (S.files shelf.old) file.old front given
        → NextAnswers (S.files shelf.old) file.new given result }
    ensures name { file.new.name ≡ file.old.name }
    ensures files { S.files shelf.new ≡ S.files shelf.old }
    ensures staged { S.staged shelf.new ≡ S.staged shelf.old }
    ensures later { S.shelf_faults shelf.old ≤ S.shelf_faults shelf.new }
    ensures cause { IfErr result (IsCausedBy (S.shelf_faults shelf.old) (S.shelf_faults shelf.new)) }
{
    file.fill(shelf)?;
    block_at(alloc, file)
}

/// The same of a reader at which a message stands, or no more is read.
fn block_at(alloc: Global, file: &FileReader) -> Result<Option<Block>, StoreFault>
    ensures answer { (files : Option Files) (front : List ℕ) (given : List (List ℕ))
        → HasRead files file.now front given → (file.now.left ≡ [] → IsTrue file.now.over)
        → NextAnswers files file.now given result }
    ensures cause { IfErr result (IsCausedBy 0 0) }
{
    let Some(message) = file.message() else {
        return match file.fault() {
            Some(fault) => Err(bad_at(alloc, file.name(), fault_place(fault))),
            None => Ok(None),
        };
    };
    match read_record(alloc, message.as_bytes()) {
        Ok(block) => Ok(Some(block)),
        Err(RecordFault::BadRecord { at }) => {
            let place = file.place().saturating_add(4).saturating_add(at as u64);
            Err(bad_at(alloc, file.name(), place))
        }
        Err(RecordFault::Mem) => Err(StoreFault::Mem),
    }
}

/// The file of this name is bad at this place.
fn bad_at(alloc: Global, name: &FileName, at: u64) -> StoreFault
    ensures { IsBadAt name.now at result }
{
    match FileName::new(alloc, name.as_bytes()) {
        Ok(name) => StoreFault::ShelfBad { name, at },
        Err(AllocError) => StoreFault::Mem,
    }
}

//! A block from the first of its files that has one under its id.

ghost use Rattle.std.specs.Prelude.{◌≡◌, ◌≤◌, ◌↔◌, IfErr, IfOk, IsTrue};
ghost use Rattle.block_record.specs.Slips.{slip as slip_of};
ghost use Rattle.one_block.specs.Files.{IsSize};
ghost use Rattle.file_source.specs.Sources.{FetchAnswers, IsNamed, merged_of as merged_file};
ghost use Rattle.file_source.specs.Steps.{AllAnswers, FindAnswers, Judges};

use crate::search::first_under;
use block_record::{Block, Slip, SlipRef, copy_slip, into_slip};
use file_reader::FileReader;
use one_block::{StoreFault, forked_name, merged_name};
use outer_world::{FileName, Shelf};
use std::alloc::{AllocError, Global};

/// The block with this slip. It is looked for in the file of `forked/` that has its number and id,
/// then in the file of `merged/` with its number, then in that of `merged1000/`. The first record
/// with its id decides: a block with another slip is `StoredOther`. A file that is bad before such a
/// record is `ShelfBad`, and `Missing`, with the file of `merged/`, says that no file has one.
pub fn fetch<S: Shelf>(alloc: Global, shelf: &mut S, slip: &Slip) -> Result<Block, StoreFault>
    ensures answer { FetchAnswers (S.files shelf.old) slip.now
        (S.shelf_faults shelf.old) (S.shelf_faults shelf.new) result }
    ensures named { IfErr result (IsNamed slip.now) }
    ensures files { S.files shelf.new ≡ S.files shelf.old }
    ensures staged { S.staged shelf.new ≡ S.staged shelf.old }
    ensures later { S.shelf_faults shelf.old ≤ S.shelf_faults shelf.new }
{
    let (block, _) = find(alloc, shelf, slip)?;
    Ok(block)
}

/// The same, and the reader of the block's file, which stands after the block.
pub fn find<S: Shelf>(
    alloc: Global,
    shelf: &mut S,
    slip: &Slip,
) -> Result<(Block, FileReader), StoreFault>
    ensures answer { AllAnswers (S.files shelf.old) slip.now
        (S.shelf_faults shelf.old) (S.shelf_faults shelf.new) result }
    ensures files { S.files shelf.new ≡ S.files shelf.old }
    ensures staged { S.staged shelf.new ≡ S.staged shelf.old }
    ensures later { S.shelf_faults shelf.old ≤ S.shelf_faults shelf.new }
{
    let forked = forked_name(alloc, slip.num, &slip.id)?;
    if let Some(found) = find_in(alloc, shelf, forked, slip)? {
        return Ok(found);
    }
    let hundred = merged_of(alloc, 100, slip.num)?;
    if let Some(found) = find_in(alloc, shelf, hundred, slip)? {
        return Ok(found);
    }
    let thousand = merged_of(alloc, 1_000, slip.num)?;
    if let Some(found) = find_in(alloc, shelf, thousand, slip)? {
        return Ok(found);
    }
    let name = merged_of(alloc, 100, slip.num)?;
    Err(StoreFault::Missing { name })
}

/// The file of merged blocks of a size in which the number falls.
fn merged_of(alloc: Global, size: u64, num: u64) -> Result<FileName, AllocError>
    requires { IsSize size }
    ensures { IfOk result (λ name. name ≡ merged_file size num) }
{
    let name = merged_name(alloc, size, num - num % size)?;
    Ok(name)
}

/// The block with this slip in one of its files, and the file's reader, or none where the file is not
/// there or has no record with its id.
fn find_in<S: Shelf>(
    alloc: Global,
    shelf: &mut S,
    name: FileName,
    slip: &Slip,
) -> Result<Option<(Block, FileReader)>, StoreFault>
    ensures answer { FindAnswers (S.files shelf.old) slip.now name
        (S.shelf_faults shelf.old) (S.shelf_faults shelf.new) result }
    ensures files { S.files shelf.new ≡ S.files shelf.old }
    ensures staged { S.staged shelf.new ≡ S.staged shelf.old }
    ensures later { S.shelf_faults shelf.old ≤ S.shelf_faults shelf.new }
{
    if shelf.size(&name)?.is_none() {
        return Ok(None);
    }
    let mut file = FileReader::open(alloc, name);
    match first_under(alloc, shelf, &mut file, &slip.id)? {
        Some(block) => {
            let block = judge(block, slip)?;
            Ok(Some((block, file)))
        }
        None => Ok(None),
    }
}

/// The block, where it is the one that was asked for.
fn judge(block: Block, slip: &Slip) -> Result<Block, StoreFault>
    ensures { Judges slip.now block result }
{
    if is_asked(&block, slip) {
        Ok(block)
    } else {
        let kept = copy_slip(slip)?;
        let read = into_slip(block);
        Err(StoreFault::StoredOther { kept, read })
    }
}

/// Whether this is the slip of the block.
pub fn is_asked(block: &Block, slip: &Slip) -> bool
    ensures { IsTrue result ↔ (slip_of block.now ≡ slip.now) }
{
    SlipRef::of_block(block).is_same(slip)
}

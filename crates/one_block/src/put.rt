//! Blocks put on a shelf, each as a file of its own.

ghost use Rattle.std.specs.Prelude.{◌≡◌, ◌≤◌, IfOk};
ghost use Rattle.block_record.specs.Slips.{slip as slip_so};
ghost use Rattle.outer_world.specs.Shelves.{KeepsOthers};
ghost use Rattle.one_block.specs.OneFiles.{one_file_text};
ghost use Rattle.one_block.specs.Names.{own_file};
ghost use Rattle.one_block.specs.Puts.{PutAnswers, StagedAfter};
ghost use Rattle.one_block.specs.PutSteps.{Compares};

use crate::faults::{Put, StoreFault};
use crate::file_faults::FileFault;
use crate::files::whole_name;
use crate::forms::Form;
use crate::names::name_of;
use crate::singles::read_single;
use block_record::{Block, Kind, ReaderName, Slip, encode, slip_of};
use dbin_file::{header, message};
use outer_world::{FileName, Shelf, read_file, write_file};
use std::alloc::{AllocError, Global};

/// Puts the block's own file into the folder `one`, unless it is there. The kind gives the type of a
/// file that is written; a file that is there is compared by its block alone.
pub fn put_block<S: Shelf>(
    alloc: Global,
    shelf: &mut S,
    reader: &ReaderName,
    block: &Block,
    kind: &Kind,
) -> Result<Put, StoreFault>
    ensures answers { PutAnswers (slip_so block.now) reader.now (one_file_text kind.now block.now)
        (S.files shelf.old) (S.files shelf.new)
        (S.shelf_faults shelf.old) (S.shelf_faults shelf.new) result }
    ensures others { KeepsOthers (own_file (slip_so block.now) reader.now)
        (S.files shelf.old) (S.files shelf.new) }
    ensures staged { StagedAfter result (S.staged shelf.old) (S.staged shelf.new) }
    ensures later { S.shelf_faults shelf.old ≤ S.shelf_faults shelf.new }
{
    let slip = slip_of(alloc, block)?;
    let name = name_of(alloc, &slip, reader)?;
    let file = whole_name(alloc, "one", &name)?;
    match read_file(alloc, shelf, &file)? {
        Some(text) => compare(alloc, reader, file, text.as_slice(), slip),
        None => {
            let text = one_file(alloc, block, kind)?;
            write_file(shelf, &file, text.as_slice())?;
            Ok(Put::Written)
        }
    }
}

/// The answer of a file that is there, of this name and text, to the block of this slip.
fn compare(
    alloc: Global,
    reader: &ReaderName,
    file: FileName,
    text: &[u8],
    offered: Slip,
) -> Result<Put, StoreFault>
    ensures { Compares reader.now file text.now offered result }
{
    let form = Form::ByReader(copy_reader(reader)?);
    match read_single(alloc, &form, &file, text, &None) {
        Ok(read) => {
            let held = read.slip;
            if held == offered {
                Ok(Put::Present)
            } else {
                Err(StoreFault::NameClash { held, offered })
            }
        }
        Err(FileFault::Bad { at }) => Err(StoreFault::ShelfBad { name: file, at }),
        Err(FileFault::OtherType { .. }) => unreachable!(),
        Err(FileFault::Mem) => Err(StoreFault::Mem),
    }
}

/// A copy of a reader's name.
fn copy_reader(reader: &ReaderName) -> Result<ReaderName, AllocError>
    ensures { IfOk result (λ copied. copied ≡ reader.now) }
{
    let copied = reader.clone()?;
    Ok(copied)
}

/// The text of the block's own file: a container with the block's record.
pub fn one_file(alloc: Global, block: &Block, kind: &Kind) -> Result<Vec<u8>, AllocError>
    ensures { IfOk result (λ text. text.items ≡ one_file_text kind.now block.now) }
{
    let record = encode(alloc, block)?;
    let mut text = header(alloc, &kind.block_type)?;
    let only = message(alloc, record.as_slice())?;
    text.extend_from_slice(only.as_slice())?;
    Ok(text)
}

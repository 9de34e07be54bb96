//! A file of merged blocks.

ghost use Rattle.std.specs.Prelude.{◌≡◌, ◌≤◌, IfOk};
ghost use Rattle.std.specs.Option.{option_map};
ghost use Rattle.file_reader.specs.Reading.{HasRead};
ghost use Rattle.one_block.specs.Files.{IsSize};
ghost use Rattle.one_block.specs.SingleSteps.{HeadAnswers};
ghost use Rattle.shelf_check.specs.Bundles.{block_ref, bundle_base as base_of_bundle, is_child as is_child_of, is_next as may_be_next};
ghost use Rattle.shelf_check.specs.Merged.{BundleAnswers};
ghost use Rattle.shelf_check.specs.Steps.{FirstAnswers, LastAnswers, NextAnswers, end_of as end_of_file, next_record_place};

use crate::faults::ReadFault;
use block_record::{Block, BlockRef, TypeName};
use file_reader::FileReader;
use one_block::{FileFault, copy_type, decode_at, end_place, head_type};
use outer_world::{FileName, Shelf};
use std::alloc::{AllocError, Global};

/// What a file of merged blocks holds.
#[derive(Drop)]
pub struct BundleRead {
    /// The type of its blocks.
    pub block_type: TypeName,
    /// Its last block.
    pub tip: BlockRef,
    /// How many blocks it has.
    pub blocks: u64,
}

/// What the file of merged blocks of this size, base and name holds, or where it is bad, after files of
/// this type and after this block. Its blocks are read one after another, and none is kept but the
/// last.
pub fn check_bundle<S: Shelf>(
    alloc: Global,
    shelf: &mut S,
    size: u64,
    base: u64,
    name: &FileName,
    kept: &Option<TypeName>,
    tip: Option<BlockRef>,
) -> Result<BundleRead, ReadFault>
    requires { IsSize size }
    ensures answer { BundleAnswers size (S.files shelf.old) base name.now kept.now tip
        (S.shelf_faults shelf.old) (S.shelf_faults shelf.new) result }
    ensures files { S.files shelf.new ≡ S.files shelf.old }
    ensures staged { S.staged shelf.new ≡ S.staged shelf.old }
    ensures later { S.shelf_faults shelf.old ≤ S.shelf_faults shelf.new }
{
    let name = FileName::new(alloc, name.as_bytes())?;
    let mut file = FileReader::open(alloc, name);
    file.fill(shelf)?;
    let block_type = read_type(&file, kept)?;
    let mut last = tip;
    let mut blocks = 0;
    while let Some(next) = first_block(alloc, size, base, &file, &last)? {
        last = Some(next);
        blocks += 1;
        file.advance();
        file.fill(shelf)?;
    }
    let tip = last_block(&file, last, blocks)?;
    Ok(BundleRead {
        block_type,
        tip,
        blocks,
    })
}

/// The type of a file, where it is that of the files before.
fn read_type(file: &FileReader, kept: &Option<TypeName>) -> Result<TypeName, FileFault>
    ensures { HeadAnswers file.now.reader.block_type kept.now (end_of_file file.now) result }
{
    let found = type_of(file)?;
    head_type(found, kept, end_of(file))
}

/// A copy of the type that was read of a file.
fn type_of(file: &FileReader) -> Result<Option<TypeName>, AllocError>
    ensures { IfOk result (λ found. found ≡ file.now.reader.block_type) }
{
    match file.block_type() {
        Some(name) => {
            let name = copy_type(name)?;
            Ok(Some(name))
        }
        None => Ok(None),
    }
}

/// Where a file of which no message is left ends too early.
fn end_of(file: &FileReader) -> u64
    ensures { result ≡ end_of_file file.now }
{
    end_place(file.fault(), file.bytes_read() as usize)
}

/// The block of the message that stands next in a file, if one does. It must be one that may come
/// next.
fn first_block(
    alloc: Global,
    size: u64,
    base: u64,
    file: &FileReader,
    tip: &Option<BlockRef>,
) -> Result<Option<BlockRef>, FileFault>
    requires { IsSize size }
    ensures { FirstAnswers size base (next_record_place file.now) tip.now file.now.left result }
{
    match file.message() {
        Some(message) => {
            let at = file.place().saturating_add(4);
            let next = next_block(alloc, size, base, at, tip, message.as_bytes())?;
            Ok(Some(next))
        }
        None => Ok(None),
    }
}

/// The last of so many blocks of a file of which no message is left. Where there is none, or the file
/// is bad, it ends too early.
fn last_block(file: &FileReader, last: Option<BlockRef>, blocks: u64) -> Result<BlockRef, FileFault>
    ensures { LastAnswers file.now last blocks result }
{
    match last {
        Some(last) => {
            if blocks > 0 && file.fault().is_none() {
                Ok(last)
            } else {
                Err(FileFault::Bad { at: end_of(file) })
            }
        }
        None => Err(FileFault::Bad { at: end_of(file) }),
    }
}

/// The block of a record at this place, which must be one that may come next.
fn next_block(
    alloc: Global,
    size: u64,
    base: u64,
    at: u64,
    tip: &Option<BlockRef>,
    bytes: &[u8],
) -> Result<BlockRef, FileFault>
    requires { IsSize size }
    ensures { NextAnswers size base at tip.now bytes.now result }
{
    let block = decode_at(alloc, bytes, at)?;
    if is_next(size, base, tip, &block) {
        Ok(into_ref(block))
    } else {
        Err(FileFault::Bad { at })
    }
}

/// The block's number and id.
fn into_ref(block: Block) -> BlockRef
    ensures { result ≡ block_ref block }
{
    let Block { num, id, .. } = block;
    BlockRef { num, id }
}

/// Whether a block may stand in the file of this size and base, after this block.
fn is_next(size: u64, base: u64, tip: &Option<BlockRef>, block: &Block) -> bool
    requires { IsSize size }
    ensures { result ≡ may_be_next size base tip.now block.now }
{
    if bundle_base(size, block.num) != base {
        return false;
    }
    match tip {
        None => true,
        Some(before) => is_child(before, block),
    }
}

/// The base of the file of this size in which a number lies.
fn bundle_base(size: u64, num: u64) -> u64
    requires { IsSize size }
    ensures { result ≡ base_of_bundle size num }
{
    num - num % size
}

/// Whether a block is the child of the one before it, with a greater number.
fn is_child(before: &BlockRef, block: &Block) -> bool
    ensures { result ≡ is_child_of before.now block.now }
{
    before.num < block.num && block.parent_num == before.num && block.parent_id == before.id
}

//! Files of blocks, and shelves in memory that hold them.

use block_record::push_record;
use history_tests::blocks::{Whole, whole_block};
use memory_world::MemoryShelf;
use outer_world::{FileName, write_file};
use std::alloc::Global;
use std::test::Fail;

/// The header of a file of test.Block.
pub const HEAD: &[u8] = b"dbin\x01\x00\x0atest.Block";

/// A file: its name, its header, and its blocks, each with ids of two bytes and a payload of one.
#[derive(Clone, Copy)]
pub struct File {
    pub name: &'static str,
    pub head: &'static [u8],
    pub blocks: &'static [Whole],
}

/// A shelf with these files.
pub fn shelf_of(alloc: Global, files: &[File]) -> Result<MemoryShelf, Fail> {
    let mut shelf = MemoryShelf::new(alloc);
    for file in files {
        add_file(alloc, &mut shelf, file)?;
    }
    Ok(shelf)
}

fn add_file(alloc: Global, shelf: &mut MemoryShelf, file: &File) -> Result<(), Fail> {
    let name = FileName::new(alloc, file.name.as_bytes())?;
    let mut text = Vec::from_slice(alloc, file.head)?;
    for fields in file.blocks {
        add_message(alloc, *fields, &mut text)?;
    }
    write_file(shelf, &name, text.as_slice())?;
    Ok(())
}

/// Adds the record of a block, which has 76 bytes, after its length.
fn add_message(alloc: Global, fields: Whole, text: &mut Vec<u8>) -> Result<(), Fail> {
    let block = whole_block(alloc, fields)?.ok_or("no block")?;
    text.extend_from_slice(&[0, 0, 0, 76])?;
    push_record(&block, text)?;
    Ok(())
}

/// Whether a file is the same on two shelves.
fn is_alike(
    alloc: Global,
    one: &MemoryShelf,
    other: &MemoryShelf,
    name: &str,
) -> Result<bool, Fail> {
    let name = FileName::new(alloc, name.as_bytes())?;
    Ok(one.file(&name) == other.file(&name))
}

/// Whether each of these files is the same on two shelves.
pub fn are_alike(
    alloc: Global,
    one: &MemoryShelf,
    other: &MemoryShelf,
    files: &[File],
) -> Result<bool, Fail> {
    for file in files {
        if !is_alike(alloc, one, other, file.name)? {
            return Ok(false);
        }
    }
    Ok(true)
}

/// Whether the file of this name is there.
pub fn is_there(alloc: Global, shelf: &MemoryShelf, name: &str) -> Result<bool, Fail> {
    let name = FileName::new(alloc, name.as_bytes())?;
    Ok(shelf.file(&name).is_some())
}

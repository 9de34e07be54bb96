//! Blocks put on shelves in memory, and layouts of shelves.

use crate::records::{A1, block};
use block_record::{Kind, ReaderName, TypeName, Version};
use memory_world::{Fuse, MemoryShelf};
use one_block::{Put, StoreFault, put_block, read_layout};
use outer_world::{FileName, write_file};
use std::alloc::Global;
use std::test::Fail;

/// The container of type `test.Block` with record 1 of the block 1/a1 with the parent 0/a0 and payload 01.
const OLD_TEXT: &[u8] =
    b"dbin\x01\0\x0atest.Block\0\0\0\x2c\x01\0\0\0\0\0\0\0\x01\0\0\0\0\0\0\0\0\0\0\0\0\0\0\0\0\0\0\0\0\0\0\0\0\x02a1\x02a0\0\0\0\x01\x01";

/// The container of the same type with record 2 of the same block.
const TEXT: &[u8] =
    b"dbin\x01\0\x0atest.Block\0\0\0\x4c\x02\0\0\0\0\0\0\0\x01\0\0\0\0\0\0\0\0\0\0\0\0\0\0\0\0\0\0\0\0\0\0\0\0\x02a1\x02a0\0\0\0\x01\x01\x4b\xf5\x12\x2f\x34\x45\x54\xc5\x3b\xde\x2e\xbb\x8c\xd2\xb7\xe3\xd1\x60\x0a\xd6\x31\xc3\x85\xa5\xd7\xcc\xe2\x3c\x77\x85\x45\x9a";

/// The same container cut in its message.
const CUT_TEXT: &[u8] = b"dbin\x01\0\x0atest.Block\0\0\0\x4c\x02";

/// The file of the block.
const OWN: &[u8] = b"one/0000000001-19700101T000000.0-a1-a0-0-r1.dbin";

/// What the block's file holds, or nothing where it is not there; the number of calls after which the
/// shelf stops; the payload of the block that is put; the answer, with its place; and what the file
/// then holds.
type Row = (&'static [u8], u64, u8, &'static str, u64, &'static [u8]);

const PUTS: [Row; 6] = [
    (b"", 9, 1, "written", 0, TEXT),
    (TEXT, 9, 1, "present", 0, TEXT),
    (OLD_TEXT, 9, 1, "present", 0, OLD_TEXT),
    (OLD_TEXT, 9, 2, "clash", 0, OLD_TEXT),
    (CUT_TEXT, 9, 1, "bad", 17, CUT_TEXT),
    (b"", 2, 1, "fault", 0, b""),
];

/// A shelf with this text in the file of this name, if there is one. It stops after so many calls.
fn shelf_with(
    alloc: Global,
    name: &FileName,
    text: &[u8],
    calls: u64,
) -> Result<Fuse<MemoryShelf>, Fail> {
    let mut shelf = MemoryShelf::new(alloc);
    if !text.is_empty() {
        write_file(&mut shelf, name, text)?;
    }
    Ok(Fuse::new(shelf, calls))
}

/// The answer to the block with this payload.
fn put(
    alloc: Global,
    shelf: &mut Fuse<MemoryShelf>,
    payload: u8,
) -> Result<Result<Put, StoreFault>, Fail> {
    let block = block(alloc, A1, payload)?;
    let reader = ReaderName::new(alloc, b"r1")?.ok_or("no reader")?;
    let block_type = TypeName::new(alloc, b"test.Block")?.ok_or("no type")?;
    let kind = Kind {
        version: Version::V1,
        block_type,
    };
    Ok(put_block(alloc, shelf, &reader, &block, &kind))
}

/// An answer in a word, with its place.
fn told(answer: &Result<Put, StoreFault>) -> (&'static str, u64) {
    match answer {
        Ok(Put::Written) => ("written", 0),
        Ok(Put::Present) => ("present", 0),
        Err(StoreFault::NameClash { .. }) => ("clash", 0),
        Err(StoreFault::ShelfBad { at, .. }) => ("bad", *at),
        Err(StoreFault::ShelfFault) => ("fault", 0),
        Err(_) => ("other", 0),
    }
}

#[test]
fn each_put_has_its_answer(rt: HostRuntime) -> Result<(), Fail> {
    let alloc = rt.alloc();
    let name = FileName::new(alloc, OWN)?;
    for (held, calls, payload, word, at, after) in PUTS {
        let mut shelf = shelf_with(alloc, &name, held, calls)?;
        let answer = put(alloc, &mut shelf, payload)?;
        assert!(rt; told(&answer) == (word, at));
        let shelf = shelf.into_inner();
        assert!(rt; shelf.file(&name).unwrap_or_default() == after);
    }
    Ok(())
}

/// Texts of layouts, each with the size, or with 0 and the place where it is bad.
const LAYOUTS: [(&[u8], u64, u64); 6] = [
    (b"", 100, 0),
    (b"100\n", 100, 0),
    (b"1000\n", 1_000, 0),
    (b"10", 0, 2),
    (b"1000", 0, 4),
    (b"100\nx", 0, 4),
];

#[test]
fn a_layout_tells_the_size(rt: HostRuntime) -> Result<(), Fail> {
    let alloc = rt.alloc();
    let name = FileName::new(alloc, b"layout/bundle")?;
    for (text, size, place) in LAYOUTS {
        let mut shelf = shelf_with(alloc, &name, text, 9)?;
        let read = match read_layout(alloc, &mut shelf) {
            Ok(size) => (size, 0),
            Err(StoreFault::ShelfBad { at, .. }) => (0, at),
            Err(_) => Err("another fault")?,
        };
        assert!(rt; read == (size, place));
    }
    Ok(())
}

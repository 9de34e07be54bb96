//! Blocks fetched from shelves in memory.

use crate::records::{Given, add_record, block};
use block_record::{Block, Slip, slip_of};
use file_source::{BlockSource, fetch};
use memory_world::{Fuse, MemoryShelf};
use one_block::StoreFault;
use outer_world::{FileName, write_file};
use std::alloc::Global;
use std::test::Fail;

const A5: Given = (5, "a5", 0, "a0");

const B6: Given = (6, "b6", 0, "a0");

fn slip(alloc: Global, given: Given) -> Result<Slip, Fail> {
    let block = block(alloc, given, 1)?;
    Ok(slip_of(alloc, &block)?)
}

/// A container with block 6, and after it block 5 with this payload, or with payload 8 a front of its
/// record, or with payload 9 nothing.
fn text(alloc: Global, payload: u8) -> Result<Vec<u8>, Fail> {
    let mut text = Vec::from_slice(alloc, b"dbin\x01\0\x01t")?;
    add_record(alloc, &mut text, B6, 1)?;
    if payload < 8 {
        add_record(alloc, &mut text, A5, payload)?;
    } else if payload == 8 {
        text.extend_from_slice(b"\0\0\0\x01\x02")?;
    }
    Ok(text)
}

/// The files that block 5 may be in, in the order in which they are read.
const FILES: [&[u8]; 3] = [
    b"forked/0000000005-a5.dbin",
    b"merged/0000000000.dbin",
    b"merged1000/0000000000.dbin",
];

/// What each of these files has, where 0 means that it is not there, and what is answered to block 5
/// with payload 1, with the place.
const ROWS: [([u8; 3], &str, u64); 7] = [
    ([1, 2, 2], "found", 0),
    ([9, 1, 2], "found", 0),
    ([0, 0, 1], "found", 0),
    ([0, 2, 1], "other", 0),
    ([0, 9, 0], "missing", 0),
    ([8, 1, 1], "bad", 61),
    ([0, 9, 8], "bad", 61),
];

fn shelf_with(alloc: Global, payloads: [u8; 3]) -> Result<MemoryShelf, Fail> {
    let mut shelf = MemoryShelf::new(alloc);
    for (name, payload) in FILES.into_iter().zip(payloads) {
        if payload != 0 {
            let text = text(alloc, payload)?;
            write_file(&mut shelf, &FileName::new(alloc, name)?, text.as_slice())?;
        }
    }
    Ok(shelf)
}

/// An answer in a word, with its place.
fn told(answer: &Result<Block, StoreFault>) -> (&'static str, u64) {
    match answer {
        Ok(_) => ("found", 0),
        Err(StoreFault::StoredOther { .. }) => ("other", 0),
        Err(StoreFault::Missing { .. }) => ("missing", 0),
        Err(StoreFault::ShelfBad { at, .. }) => ("bad", *at),
        Err(_) => ("another fault", 0),
    }
}

#[test]
fn the_first_record_under_the_id_decides(rt: HostRuntime) -> Result<(), Fail> {
    let alloc = rt.alloc();
    let asked = slip(alloc, A5)?;
    for (payloads, word, at) in ROWS {
        let mut shelf = shelf_with(alloc, payloads)?;
        let answer = fetch(alloc, &mut shelf, &asked);
        assert!(rt; told(&answer) == (word, at));
    }
    Ok(())
}

/// The sizes of the block's two first files, and one piece of the second, are three calls.
#[test]
fn a_run_of_blocks_reads_its_file_once(rt: HostRuntime) -> Result<(), Fail> {
    let alloc = rt.alloc();
    let mut shelf = Fuse::new(shelf_with(alloc, [0, 1, 0])?, 3);
    let mut source = BlockSource::new();
    let first = source.fetch_next(alloc, &mut shelf, &slip(alloc, B6)?);
    assert!(rt; told(&first) == ("found", 0));
    let second = source.fetch_next(alloc, &mut shelf, &slip(alloc, A5)?);
    assert!(rt; told(&second) == ("found", 0));
    Ok(())
}

//! Shelves in memory, with counts and places worked out by hand.

use crate::records::{A1, Given, add_record};
use block_record::TypeName;
use memory_world::{FailingShelf, MemoryShelf};
use one_block::StoreFault;
use outer_world::{FileName, write_file};
use shelf_check::{LoadFault, Report, check_shelf};
use std::alloc::{AllocError, Global};
use std::test::Fail;

/// A container of a type of ten bytes with these blocks. Its header has 17 bytes.
fn container(
    alloc: Global,
    block_type: &str,
    blocks: &[Given],
    zeros: usize,
) -> Result<Vec<u8>, AllocError> {
    let mut out = Vec::from_slice(alloc, b"dbin\x01\x00\x0a")?;
    out.extend_from_slice(block_type.as_bytes())?;
    for block in blocks {
        add_record(alloc, &mut out, *block, 1)?;
    }
    for _ in 0..zeros {
        out.push(0)?;
    }
    Ok(out)
}

/// Puts a file of these blocks on a shelf, with so many bytes 0 after them.
fn put(
    shelf: &mut MemoryShelf,
    alloc: Global,
    name: &str,
    blocks: &[Given],
    zeros: usize,
) -> Result<(), Fail> {
    let name = FileName::new(alloc, name.as_bytes())?;
    let text = container(alloc, "test.Block", blocks, zeros)?;
    write_file(shelf, &name, text.as_slice())?;
    Ok(())
}

/// The report of a shelf, or none where it is refused.
fn report(alloc: Global, shelf: &mut MemoryShelf) -> Option<Report> {
    check_shelf(alloc, shelf).ok()
}

/// The last file of merged blocks of a full shelf.
const LAST: &str = "merged1000/10000000000.dbin";

/// A shelf whose files of merged blocks cover 1,000 numbers each. It has two of them, whose bases of
/// ten and eleven digits stand in another order by bytes, a one-block file and a forked block.
fn full_shelf(alloc: Global) -> Result<MemoryShelf, Fail> {
    let mut shelf = MemoryShelf::new(alloc);
    let layout = FileName::new(alloc, b"layout/bundle")?;
    write_file(&mut shelf, &layout, b"1000\n")?;
    let first = [
        (2_000_000_001, "a1", 0, "a0"),
        (2_000_000_999, "b2", 2_000_000_001, "a1"),
    ];
    put(&mut shelf, alloc, "merged1000/2000000000.dbin", &first, 0)?;
    let second = [(10_000_000_150, "c3", 2_000_000_999, "b2")];
    put(&mut shelf, alloc, LAST, &second, 0)?;
    let one = "one/0000000151-19700101T000000.0-d4-c3-0-r1.dbin";
    put(&mut shelf, alloc, one, &[(151, "d4", 150, "c3")], 0)?;
    let forked = [(2, "f2", 1, "a1")];
    put(&mut shelf, alloc, "forked/0000000002-f2.dbin", &forked, 0)?;
    Ok(shelf)
}

#[test]
fn files_and_blocks_are_counted(rt: HostRuntime) -> Result<(), Fail> {
    let mut shelf = full_shelf(rt.alloc())?;
    let counts = Report {
        bundles: 2,
        blocks: 3,
        one: 1,
        forked: 1,
    };
    assert!(rt; report(rt.alloc(), &mut shelf) == Some(counts));
    Ok(())
}

/// Where the file of this name is bad, or none where it is not.
fn place(alloc: Global, shelf: &mut MemoryShelf, name: &str) -> Option<u64> {
    match check_shelf(alloc, shelf) {
        Err(LoadFault::Store(StoreFault::ShelfBad { name: bad, at })) => {
            if bad.as_bytes() == name.as_bytes() {
                Some(at)
            } else {
                None
            }
        }
        _ => None,
    }
}

/// The name of a file, two blocks, how many of them it has, how many bytes 0 follow them, and where
/// it is bad.
type Row = (&'static str, [Given; 2], usize, usize, u64);

const B2: Given = (2, "b2", 1, "a1");

const ONE: &str = "one/0000000001-19700101T000000.0-a1-a0-0-r1.dbin";

const FIRST: &str = "merged/0000000000.dbin";

const BAD: [Row; 12] = [
    ("merged/0000000001.dbin", [A1, B2], 2, 0, 0),
    (FIRST, [A1, B2], 0, 0, 17),
    (FIRST, [A1, B2], 2, 3, 113),
    (FIRST, [A1, (100, "b2", 1, "a1")], 2, 0, 69),
    (FIRST, [A1, (2, "b2", 1, "zz")], 2, 0, 69),
    (FIRST, [A1, (2, "b-", 1, "a1")], 2, 0, 102),
    (ONE, [A1, B2], 0, 0, 17),
    (ONE, [A1, B2], 2, 0, 65),
    (ONE, [B2, A1], 2, 0, 0),
    ("forked/0000000001-a1.dbin", [A1, B2], 1, 1, 65),
    ("forked/0000000001-a2.dbin", [A1, B2], 1, 0, 0),
    ("forked/1-a1.dbin", [A1, B2], 1, 0, 0),
];

fn bad_place(alloc: Global, row: Row) -> Result<Option<u64>, Fail> {
    let (name, blocks, count, zeros, _) = row;
    let mut shelf = MemoryShelf::new(alloc);
    put(&mut shelf, alloc, name, &blocks[..count.min(2)], zeros)?;
    Ok(place(alloc, &mut shelf, name))
}

#[test]
fn a_bad_file_is_named_at_its_first_fault(rt: HostRuntime) -> Result<(), Fail> {
    for row in BAD {
        assert!(rt; bad_place(rt.alloc(), row)? == Some(row.4));
    }
    Ok(())
}

#[test]
fn blocks_are_children_over_all_files(rt: HostRuntime) -> Result<(), Fail> {
    let alloc = rt.alloc();
    let mut shelf = full_shelf(alloc)?;
    let apart = [(10_000_000_150, "c3", 2_000_000_999, "b3")];
    put(&mut shelf, alloc, LAST, &apart, 0)?;
    assert!(rt; place(alloc, &mut shelf, LAST) == Some(21));
    Ok(())
}

/// The answer to a full shelf with a further file of another type.
fn clash(alloc: Global) -> Result<Result<Report, LoadFault>, Fail> {
    let mut shelf = full_shelf(alloc)?;
    let name = FileName::new(alloc, b"forked/0000000003-g3.dbin")?;
    let text = container(alloc, "best.Block", &[(3, "g3", 1, "a1")], 0)?;
    write_file(&mut shelf, &name, text.as_slice())?;
    Ok(check_shelf(alloc, &mut shelf))
}

#[test]
fn two_types_clash(rt: HostRuntime) -> Result<(), Fail> {
    let alloc = rt.alloc();
    let held = TypeName::new(alloc, b"test.Block")?.ok_or("no type")?;
    let offered = TypeName::new(alloc, b"best.Block")?.ok_or("no type")?;
    assert!(rt; clash(alloc)? == Err(LoadFault::KindClash { held, offered }));
    Ok(())
}

/// The answer to a shelf with one file whose call of this number fails, counted from 0.
fn failing(alloc: Global, call: u64) -> Result<Result<Report, LoadFault>, Fail> {
    let mut shelf = MemoryShelf::new(alloc);
    put(&mut shelf, alloc, FIRST, &[A1], 0)?;
    let fails = Vec::from_slice(alloc, &[call])?;
    let mut shelf = FailingShelf::new(shelf, fails);
    Ok(check_shelf(alloc, &mut shelf))
}

#[test]
fn a_failed_call_is_told(rt: HostRuntime) -> Result<(), Fail> {
    let told = Err(LoadFault::Store(StoreFault::ShelfFault));
    for call in 0..6 {
        assert!(rt; failing(rt.alloc(), call)? == told);
    }
    Ok(())
}

//! Files on a shelf in memory.

use dbin_file::DbinFault;
use file_reader::FileReader;
use memory_world::MemoryShelf;
use outer_world::{FileName, write_file};
use std::alloc::Global;
use std::test::Fail;

// The container of type `t` with the messages `a` and `bc` and one without bytes.
const CONTAINER: [u8; 23] = [
    b'd', b'b', b'i', b'n', 1, 0, 1, b't', 0, 0, 0, 1, b'a', 0, 0, 0, 2, b'b', b'c', 0, 0, 0, 0,
];

/// How many bytes of the container there are, where the length of each of three messages stands, or
/// none, and the fault.
type Row = (usize, [Option<u64>; 3], Option<DbinFault>);

const ROWS: [Row; 5] = [
    (23, [Some(8), Some(13), Some(19)], None),
    (
        22,
        [Some(8), Some(13), None],
        Some(DbinFault::Truncated { at: 19 }),
    ),
    (19, [Some(8), Some(13), None], None),
    (8, [None; 3], None),
    (7, [None; 3], Some(DbinFault::Truncated { at: 0 })),
];

/// The place of the next message, which is then passed over.
fn next(file: &mut FileReader, shelf: &mut MemoryShelf) -> Result<Option<u64>, Fail> {
    file.fill(shelf)?;
    let place = match file.message() {
        Some(_) => Some(file.place()),
        None => None,
    };
    file.advance();
    Ok(place)
}

/// The places of the first three messages of a file, and its fault.
fn read(
    alloc: Global,
    shelf: &mut MemoryShelf,
) -> Result<([Option<u64>; 3], Option<DbinFault>), Fail> {
    let name = FileName::new(alloc, b"merged/a.dbin")?;
    let mut file = FileReader::open(alloc, name);
    let first = next(&mut file, shelf)?;
    let second = next(&mut file, shelf)?;
    let third = next(&mut file, shelf)?;
    file.fill(shelf)?;
    Ok(([first, second, third], file.fault()))
}

#[test]
fn messages_are_read_to_the_end_of_a_file(rt: HostRuntime) -> Result<(), Fail> {
    let alloc = rt.alloc();
    let name = FileName::new(alloc, b"merged/a.dbin")?;
    for (count, places, fault) in ROWS {
        let mut shelf = MemoryShelf::new(alloc);
        let text = CONTAINER.get(..count).ok_or("no such place")?;
        write_file(&mut shelf, &name, text)?;
        assert!(rt;
            read(alloc, &mut shelf)? == (places, fault),
            "{count} bytes"
        );
    }
    Ok(())
}

#[test]
fn a_file_that_is_not_there_has_no_bytes(rt: HostRuntime) -> Result<(), Fail> {
    let mut shelf = MemoryShelf::new(rt.alloc());
    let none = ([None; 3], Some(DbinFault::Truncated { at: 0 }));
    assert!(rt; read(rt.alloc(), &mut shelf)? == none);
    Ok(())
}

//! A container read in pieces, with faults worked out by hand.

ghost use Rattle.std.specs.Prelude.{◌<◌};

use block_record::{Bytes, TypeName};
use dbin_file::{DbinFault, DbinReader, header, message};
use std::alloc::Global;
use std::test::Fail;

// The container of type `test.Block` with the record of a block of 44 bytes as its message.
const CONTAINER: [u8; 65] = [
    b'd', b'b', b'i', b'n', 1, 0, 10, b't', b'e', b's', b't', b'.', b'B', b'l', b'o', b'c', b'k',
    0, 0, 0, 44, 1, 0, 0, 0, 0, 0, 0, 0, 1, 0, 0, 0, 0, 0, 0, 0, 0, 0, 0, 0, 0, 0, 0, 0, 0, 0, 0,
    0, 0, 0, 0, 0, 0, 2, b'a', b'1', 2, b'a', b'0', 0, 0, 0, 1, 1,
];

// Reads a container in pieces of so many bytes.
fn read(alloc: Global, text: &[u8], size: usize, out: &mut Vec<Bytes>) -> Result<(), DbinFault>
    requires { 0 < size }
{
    let mut reader = DbinReader::new(alloc);
    for piece in text.chunks(size) {
        reader.feed(piece, out)?;
    }
    reader.finish()
}

#[test]
fn a_container_is_read_in_any_pieces(rt: HostRuntime) -> Result<(), Fail> {
    for size in [1, 3, 65] {
        let mut out = Vec::new(rt.alloc());
        assert!(rt;
            read(rt.alloc(), &CONTAINER, size, &mut out).is_ok(),
            "at {size}"
        );
        assert!(rt; out.len() == 1, "at {size}");
        for message in &out {
            assert!(rt; message.as_bytes() == &CONTAINER[21..], "at {size}");
        }
    }
    Ok(())
}

// A byte at a place of the container, and the fault that it then has.
const CHANGES: [(usize, u8, Option<DbinFault>); 16] = [
    (0, b'x', Some(DbinFault::NotDbin { at: 0 })),
    (3, b'm', Some(DbinFault::NotDbin { at: 3 })),
    (4, 2, Some(DbinFault::BadVersion { byte: 2 })),
    (5, 1, Some(DbinFault::NotDbin { at: 5 })),
    (6, 0, Some(DbinFault::NotDbin { at: 5 })),
    (6, 255, Some(DbinFault::NotDbin { at: 17 })),
    (7, b' ', Some(DbinFault::NotDbin { at: 7 })),
    (16, 0x7f, Some(DbinFault::NotDbin { at: 16 })),
    (
        6,
        9,
        Some(DbinFault::MessageTooLong {
            at: 16,
            length: 0x6b00_0000,
        }),
    ),
    (17, 2, Some(DbinFault::Truncated { at: 17 })),
    (
        17,
        3,
        Some(DbinFault::MessageTooLong {
            at: 17,
            length: 50_331_692,
        }),
    ),
    (20, 0, Some(DbinFault::Truncated { at: 21 })),
    (20, 43, Some(DbinFault::Truncated { at: 64 })),
    (20, 45, Some(DbinFault::Truncated { at: 17 })),
    (21, 9, None),
    (64, 0, None),
];

#[test]
fn a_changed_container_has_its_first_fault(rt: HostRuntime) -> Result<(), Fail> {
    for (at, byte, fault) in CHANGES {
        let mut text = CONTAINER;
        *text.get_mut(at).ok_or("no such place")? = byte;
        for size in [1, 3, 65] {
            let mut out = Vec::new(rt.alloc());
            let read = read(rt.alloc(), &text, size, &mut out).err();
            assert!(rt; read == fault, "at {at} with {byte} in pieces of {size}");
        }
    }
    Ok(())
}

// How many bytes of the container there are, and the fault at its end.
const CUTS: [(usize, Option<DbinFault>); 9] = [
    (0, Some(DbinFault::Truncated { at: 0 })),
    (3, Some(DbinFault::Truncated { at: 0 })),
    (6, Some(DbinFault::Truncated { at: 0 })),
    (16, Some(DbinFault::Truncated { at: 0 })),
    (17, None),
    (18, Some(DbinFault::Truncated { at: 17 })),
    (20, Some(DbinFault::Truncated { at: 17 })),
    (64, Some(DbinFault::Truncated { at: 17 })),
    (65, None),
];

#[test]
fn a_container_ends_after_its_header_or_a_message(rt: HostRuntime) -> Result<(), Fail> {
    for (count, fault) in CUTS {
        let text = CONTAINER.get(..count).ok_or("no such place")?;
        for size in [1, 3, 65] {
            let mut out = Vec::new(rt.alloc());
            assert!(rt;
                read(rt.alloc(), text, size, &mut out).err() == fault,
                "at {count}"
            );
            assert!(rt; out.is_empty() == (count < 65), "at {count}");
        }
    }
    Ok(())
}

#[test]
fn a_container_is_its_header_and_its_messages(rt: HostRuntime) -> Result<(), Fail> {
    let alloc = rt.alloc();
    let block_type = TypeName::new(alloc, b"test.Block")?.ok_or("no type")?;
    let mut text = header(alloc, &block_type)?;
    text.extend_from_slice(message(alloc, &CONTAINER[21..])?.as_slice())?;
    assert!(rt; text.as_slice() == CONTAINER.as_slice());
    Ok(())
}

#[test]
fn a_fault_is_answered_again(rt: HostRuntime) -> Result<(), Fail> {
    let mut reader = DbinReader::new(rt.alloc());
    let mut out = Vec::new(rt.alloc());
    assert!(rt; reader.feed(&CONTAINER[..17], &mut out).is_ok() && reader.finish().is_ok());
    match reader.block_type() {
        Some(block_type) => assert!(rt; block_type.as_bytes() == b"test.Block".as_slice()),
        None => return Err("no type".into()),
    }
    let long = DbinFault::MessageTooLong {
        at: 17,
        length: u32::MAX,
    };
    assert!(rt; reader.feed(&[255, 255, 255, 255], &mut out) == Err(long));
    assert!(rt; reader.feed(&CONTAINER[17..], &mut out) == Err(long) && out.is_empty());
    assert!(rt; reader.finish() == Err(long));
    Ok(())
}

//! Ids, names, blocks and their records, with bytes worked out by hand.

use crate::ids::id_of;
use block_record::{
    Block, Bytes, Id, Kind, ReaderName, RecordFault, SlipRef, TypeName, Version, decode, encode,
    encode_old, is_id, read_number, slip_of,
};
use sha2::{Digest, Sha256};
use std::alloc::Global;
use std::test::Fail;

const NUMBERS: [(&[u8], Option<u64>); 12] = [
    (b"0", Some(0)),
    (b"7", Some(7)),
    (b"18571000", Some(18_571_000)),
    (b"18446744073709551615", Some(u64::MAX)),
    (b"18446744073709551616", None),
    (b"99999999999999999999999", None),
    (b"", None),
    (b"007", None),
    (b"00", None),
    (b"+7", None),
    (b"-7", None),
    (b"7 ", None),
];

#[test]
fn numbers_have_one_spelling(rt: HostRuntime) {
    for (text, number) in NUMBERS {
        assert!(rt; read_number(text) == number, "at {text:?}");
    }
}

const IDS: [(&[u8], bool); 8] = [
    (b"a1", true),
    (b"_", true),
    (b"Z9_x", true),
    (&[b'f'; 128], true),
    (&[b'f'; 129], false),
    (b"", false),
    (b"a-1", false),
    (b"a 1", false),
];

#[test]
fn ids_are_letters_digits_and_underscores(rt: HostRuntime) -> Result<(), Fail> {
    for (text, valid) in IDS {
        assert!(rt; is_id(text) == valid, "at {text:?}");
        let id = Id::new(rt.alloc(), text)?;
        assert!(rt; id.is_some() == valid, "at {text:?}");
        if let Some(id) = id {
            assert!(rt; id.as_bytes() == text, "at {text:?}");
        }
    }
    Ok(())
}

const NAMES: [(&[u8], bool, bool); 8] = [
    (b"r1", true, true),
    (b"sf.ethereum.type.v2.Block", true, false),
    (b"Reader", true, false),
    (b"-", true, false),
    (b"", false, false),
    (b"a b", false, false),
    (b"a\x7f", false, false),
    (&[b'a'; 256], false, false),
];

#[test]
fn types_and_readers_have_names_of_their_own(rt: HostRuntime) -> Result<(), Fail> {
    for (text, is_type, is_reader) in NAMES {
        let block_type = TypeName::new(rt.alloc(), text)?;
        assert!(rt; block_type.is_some() == is_type, "at {text:?}");
        if let Some(name) = block_type {
            assert!(rt; name.as_bytes() == text, "at {text:?}");
        }
        let reader = ReaderName::new(rt.alloc(), text)?;
        assert!(rt; reader.is_some() == is_reader, "at {text:?}");
        if let Some(name) = reader {
            assert!(rt; name.as_bytes() == text, "at {text:?}");
        }
    }
    Ok(())
}

// SHA-256 of the byte 1.
const DIGEST: [u8; 32] = [
    0x4b, 0xf5, 0x12, 0x2f, 0x34, 0x45, 0x54, 0xc5, 0x3b, 0xde, 0x2e, 0xbb, 0x8c, 0xd2, 0xb7, 0xe3,
    0xd1, 0x60, 0x0a, 0xd6, 0x31, 0xc3, 0x85, 0xa5, 0xd7, 0xcc, 0xe2, 0x3c, 0x77, 0x85, 0x45, 0x9a,
];

#[test]
fn a_slip_shows_its_block(rt: HostRuntime) -> Result<(), Fail> {
    let alloc = rt.alloc();
    let payload = Bytes::new(alloc, &[1])?;
    let digest = Sha256::digest(payload.as_bytes());
    let block = Block {
        num: 2,
        id: id_of(alloc, "b2")?,
        parent_num: 1,
        parent_id: id_of(alloc, "a1")?,
        lib_num: 9,
        time: 1_500_000_000,
        payload,
        digest,
    };
    let slip = slip_of(alloc, &block)?;
    assert_eq!(rt;
        (slip.num, slip.parent_num, slip.lib_num, slip.time),
        (2, 1, 9, 1_500_000_000)
    );
    assert!(rt; slip.id == block.id && slip.parent_id == block.parent_id);
    assert!(rt; slip.length == 1 && slip.digest == DIGEST);
    assert!(rt; slip.clone()? == slip);
    let seen = SlipRef::of_block(&block);
    assert!(rt; seen.is_same(&slip) && seen.to_slip()? == slip);
    assert!(rt; SlipRef::of_slip(&slip).is_same(&slip));
    assert!(rt; Bytes::from_vec(block.payload.into_vec()).as_bytes() == [1].as_slice());
    Ok(())
}

#[test]
fn kinds_differ_by_version_and_type(rt: HostRuntime) -> Result<(), Fail> {
    let block_type = TypeName::new(rt.alloc(), b"test.Block")?.ok_or("no type")?;
    let old = Kind {
        version: Version::V1,
        block_type: block_type.clone()?,
    };
    let new = Kind {
        version: Version::V3,
        block_type,
    };
    assert!(rt; old != new && old == old.clone()?);
    Ok(())
}

// Record 1 of the block 1/a1 with the parent 0/a0, lib number 0, time 0 and the payload 01.
const OLD_RECORD: [u8; 44] = [
    1, 0, 0, 0, 0, 0, 0, 0, 1, 0, 0, 0, 0, 0, 0, 0, 0, 0, 0, 0, 0, 0, 0, 0, 0, 0, 0, 0, 0, 0, 0, 0,
    0, 2, b'a', b'1', 2, b'a', b'0', 0, 0, 0, 1, 1,
];

// Record 2 of the same block.
const RECORD: [u8; 76] = [
    2, 0, 0, 0, 0, 0, 0, 0, 1, 0, 0, 0, 0, 0, 0, 0, 0, 0, 0, 0, 0, 0, 0, 0, 0, 0, 0, 0, 0, 0, 0, 0,
    0, 2, b'a', b'1', 2, b'a', b'0', 0, 0, 0, 1, 1, 0x4b, 0xf5, 0x12, 0x2f, 0x34, 0x45, 0x54, 0xc5,
    0x3b, 0xde, 0x2e, 0xbb, 0x8c, 0xd2, 0xb7, 0xe3, 0xd1, 0x60, 0x0a, 0xd6, 0x31, 0xc3, 0x85, 0xa5,
    0xd7, 0xcc, 0xe2, 0x3c, 0x77, 0x85, 0x45, 0x9a,
];

// A record, a byte at a place of it, and where it is then refused.
const CHANGES: [(&[u8], usize, u8, Option<usize>); 26] = [
    (&OLD_RECORD, 0, 3, Some(0)),
    (&OLD_RECORD, 0, 2, Some(44)),
    (&OLD_RECORD, 8, 0, None),
    (&OLD_RECORD, 8, 200, None),
    (&OLD_RECORD, 16, 1, Some(9)),
    (&OLD_RECORD, 9, 1, Some(9)),
    (&OLD_RECORD, 24, 7, None),
    (&OLD_RECORD, 25, 255, None),
    (&OLD_RECORD, 33, 0, Some(33)),
    (&OLD_RECORD, 33, 1, Some(35)),
    (&OLD_RECORD, 33, 3, Some(33)),
    (&OLD_RECORD, 33, 255, Some(33)),
    (&OLD_RECORD, 34, b'-', Some(33)),
    (&OLD_RECORD, 36, 0, Some(36)),
    (&OLD_RECORD, 36, 9, Some(36)),
    (&OLD_RECORD, 38, b' ', Some(36)),
    (&OLD_RECORD, 39, 255, Some(39)),
    (&OLD_RECORD, 42, 0, Some(43)),
    (&OLD_RECORD, 42, 2, Some(39)),
    (&OLD_RECORD, 43, 2, None),
    (&RECORD, 0, 1, Some(44)),
    (&RECORD, 0, 0, Some(0)),
    (&RECORD, 8, 200, None),
    (&RECORD, 42, 0, Some(43)),
    (&RECORD, 43, 2, Some(44)),
    (&RECORD, 75, 0x9b, Some(44)),
];

// Where the bytes are refused, if they are.
fn refused_at(alloc: Global, bytes: &[u8]) -> Result<Option<usize>, Fail> {
    match decode(alloc, bytes) {
        Ok(_block) => Ok(None),
        Err(RecordFault::BadRecord { at }) => Ok(Some(at)),
        Err(RecordFault::Mem) => Err("no memory".into()),
    }
}

#[test]
fn a_changed_record_is_refused_at_the_field_that_is_bad(rt: HostRuntime) -> Result<(), Fail> {
    for (record, at, byte, bad) in CHANGES {
        let mut bytes = Vec::from_slice(rt.alloc(), record)?;
        *bytes.get_mut(at).ok_or("no such place")? = byte;
        let refused = refused_at(rt.alloc(), bytes.as_slice())?;
        assert!(rt; refused == bad, "at {at} with {byte}");
    }
    Ok(())
}

// How many bytes of the record there are, and the field that is cut.
const CUTS: [(usize, usize); 17] = [
    (0, 0),
    (1, 1),
    (8, 1),
    (9, 9),
    (16, 9),
    (24, 17),
    (32, 25),
    (33, 33),
    (35, 33),
    (36, 36),
    (38, 36),
    (39, 39),
    (42, 39),
    (43, 39),
    (44, 44),
    (45, 44),
    (75, 44),
];

#[test]
fn a_cut_record_is_refused_at_the_field_that_is_cut(rt: HostRuntime) -> Result<(), Fail> {
    for (count, bad) in CUTS {
        let bytes = RECORD.get(..count).ok_or("no such place")?;
        let refused = refused_at(rt.alloc(), bytes)?;
        assert!(rt; refused == Some(bad), "at {count}");
    }
    Ok(())
}

#[test]
fn a_record_has_nothing_after_it(rt: HostRuntime) -> Result<(), Fail> {
    for record in [OLD_RECORD.as_slice(), RECORD.as_slice()] {
        let mut bytes = Vec::from_slice(rt.alloc(), record)?;
        bytes.push(0)?;
        let refused = refused_at(rt.alloc(), bytes.as_slice())?;
        assert!(rt; refused == Some(record.len()));
    }
    Ok(())
}

#[test]
fn a_block_is_its_record_in_both_forms(rt: HostRuntime) -> Result<(), Fail> {
    let alloc = rt.alloc();
    for record in [OLD_RECORD.as_slice(), RECORD.as_slice()] {
        let block = decode(alloc, record).ok().ok_or("the bytes are a record")?;
        assert_eq!(rt;
            (block.num, block.parent_num, block.lib_num, block.time),
            (1, 0, 0, 0)
        );
        assert!(rt; block.id.as_bytes() == b"a1".as_slice());
        assert!(rt; block.parent_id.as_bytes() == b"a0".as_slice());
        assert!(rt; block.payload.as_bytes() == [1].as_slice() && block.digest == DIGEST);
        assert!(rt; encode(alloc, &block)?.as_slice() == RECORD.as_slice());
        assert!(rt; encode_old(alloc, &block)?.as_slice() == OLD_RECORD.as_slice());
    }
    Ok(())
}

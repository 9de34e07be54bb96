//! Names of files, with answers from the rules and from the system's calendar.

use block_record::{Id, ReaderName, Slip};
use one_block::{
    NameParts, bare_name, forked_name, merged_base, merged_name, name_of, parse_name, whole_name,
};
use outer_world::FileName;
use std::alloc::Global;
use std::test::Fail;

fn id(alloc: Global, text: &str) -> Result<Id, Fail> {
    let id = Id::new(alloc, text.as_bytes())?.ok_or("no id")?;
    Ok(id)
}

fn reader(alloc: Global, text: &str) -> Result<ReaderName, Fail> {
    let reader = ReaderName::new(alloc, text.as_bytes())?.ok_or("no reader")?;
    Ok(reader)
}

/// A block: its number, time, id, parent's id, lib number and reader.
type Given = (u64, u64, &'static str, &'static str, u64, &'static str);

fn name(alloc: Global, given: Given) -> Result<FileName, Fail> {
    let (num, time, own, parent, lib_num, by) = given;
    let slip = Slip {
        num,
        id: id(alloc, own)?,
        parent_num: 0,
        parent_id: id(alloc, parent)?,
        lib_num,
        time,
        length: 0,
        digest: [0; 32],
    };
    Ok(name_of(alloc, &slip, &reader(alloc, by)?)?)
}

/// Blocks and the names of their files.
const NAMES: [(Given, &str); 8] = [
    (
        (100, 1_500_000_000_123_456_789, "x100", "x99", 98, "r1"),
        "0000000100-20170714T024000.1-x100-x99-98-r1",
    ),
    (
        (0, 0, "g0", "z0", 0, "r2"),
        "0000000000-19700101T000000.0-g0-z0-0-r2",
    ),
    (
        (
            1,
            951_782_400_000_000_000,
            "0123456789abcdef",
            "0123456789abcdefg",
            0,
            "a_1",
        ),
        "0000000001-20000229T000000.0-0123456789abcdef-123456789abcdefg-0-a_1",
    ),
    (
        (1, 946_684_799_999_999_999, "a", "b", 0, "r1"),
        "0000000001-19991231T235959.9-a-b-0-r1",
    ),
    (
        (1, 2_147_483_647_000_000_000, "a", "b", 0, "r1"),
        "0000000001-20380119T031407.0-a-b-0-r1",
    ),
    (
        (1, 4_107_542_400_000_000_000, "a", "b", 0, "r1"),
        "0000000001-21000301T000000.0-a-b-0-r1",
    ),
    (
        (9_999_999_999, 18_446_744_073_709_551_615, "a", "b", 0, "r1"),
        "9999999999-25540721T233433.7-a-b-0-r1",
    ),
    (
        (
            18_446_744_073_709_551_615,
            99_999_999,
            "a",
            "b",
            18_446_744_073_709_551_615,
            "r1",
        ),
        "18446744073709551615-19700101T000000.0-a-b-18446744073709551615-r1",
    ),
];

#[test]
fn each_block_has_one_name(rt: HostRuntime) -> Result<(), Fail> {
    for (given, text) in NAMES {
        let made = name(rt.alloc(), given)?;
        assert!(rt; made.as_bytes() == text.as_bytes());
    }
    Ok(())
}

fn parse(alloc: Global, text: &str) -> Result<Option<NameParts>, Fail> {
    let name = FileName::new(alloc, text.as_bytes())?;
    Ok(parse_name(alloc, &name)?)
}

/// Names of the last years, each with its tenths of seconds.
const READ: [(&str, u64); 2] = [
    ("0000000007-99991231T235959.9-a-b-6-r1", 2_534_023_007_999),
    ("0000000007-99960229T000000.0-a-b-6-r1", 2_532_811_680_000),
];

#[test]
fn a_time_is_read(rt: HostRuntime) -> Result<(), Fail> {
    for (text, tenths) in READ {
        let parts = parse(rt.alloc(), text)?.ok_or("no name")?;
        assert!(rt; parts.tenths == tenths);
    }
    Ok(())
}

const REFUSED: [&str; 20] = [
    "",
    "0000000100-20170714T024000.1-x100-x99-98",
    "0000000100-20170714T024000.1-x100-x99-98-",
    "0000000100-20170714T024000.1-x100-x99-98-r1-r2",
    "0000000100-20170714T024000.1-x100-x99-98-R1",
    "000000100-20170714T024000.1-x100-x99-98-r1",
    "00000000100-20170714T024000.1-x100-x99-98-r1",
    "0000000100-20171314T024000.1-x100-x99-98-r1",
    "0000000100-20170014T024000.1-x100-x99-98-r1",
    "0000000100-20170700T024000.1-x100-x99-98-r1",
    "0000000100-20170229T024000.1-x100-x99-98-r1",
    "0000000100-21000229T024000.1-x100-x99-98-r1",
    "0000000100-19691231T235959.9-x100-x99-98-r1",
    "0000000100-20170714T240000.0-x100-x99-98-r1",
    "0000000100-20170714T235960.0-x100-x99-98-r1",
    "0000000100-20170714T024000-x100-x99-98-r1",
    "0000000100-20170714T024000.12-x100-x99-98-r1",
    "0000000100-20170714T024000.1-0123456789abcdefg-x99-98-r1",
    "0000000100-20170714T024000.1-x100--98-r1",
    "0000000100-20170714T024000.1-x100-x99-098-r1",
];

#[test]
fn other_texts_are_no_names(rt: HostRuntime) -> Result<(), Fail> {
    for text in REFUSED {
        assert!(rt; parse(rt.alloc(), text)?.is_none());
    }
    Ok(())
}

#[test]
fn whole_names_have_folder_and_ending(rt: HostRuntime) -> Result<(), Fail> {
    let alloc = rt.alloc();
    let bare = FileName::new(alloc, b"a-b")?;
    let whole = whole_name(alloc, "one", &bare)?;
    assert!(rt; whole.as_bytes() == b"one/a-b.dbin".as_slice());
    assert!(rt; bare_name(alloc, &whole)? == Some(bare));
    let merged = merged_name(alloc, 1_000, 5_000)?;
    assert!(rt; merged.as_bytes() == b"merged1000/0000005000.dbin".as_slice());
    let forked = forked_name(alloc, 12_345_678_901, &id(alloc, "b12")?)?;
    assert!(rt; forked.as_bytes() == b"forked/12345678901-b12.dbin".as_slice());
    Ok(())
}

/// Texts, each with the base that it is the name of.
const BASES: [(&str, Option<u64>); 7] = [
    ("merged/0000000100.dbin", Some(100)),
    ("merged1000/0000001000.dbin", Some(1_000)),
    (
        "merged/18446744073709551600.dbin",
        Some(18_446_744_073_709_551_600),
    ),
    ("merged1000/0000000100.dbin", None),
    ("merged/00000000100.dbin", None),
    ("merged/0000000100", None),
    ("one/0000000100.dbin", None),
];

#[test]
fn a_base_is_read_of_a_merged_name_alone(rt: HostRuntime) -> Result<(), Fail> {
    for (text, base) in BASES {
        let file = FileName::new(rt.alloc(), text.as_bytes())?;
        assert!(rt; merged_base(&file) == base);
    }
    Ok(())
}

/// Texts that have no bare name.
const UNWHOLE: [&str; 2] = ["one.dbin", "one/a.dbi"];

#[test]
fn a_bare_name_needs_slash_and_ending(rt: HostRuntime) -> Result<(), Fail> {
    let alloc = rt.alloc();
    for text in UNWHOLE {
        let file = FileName::new(alloc, text.as_bytes())?;
        assert!(rt; bare_name(alloc, &file)?.is_none());
    }
    Ok(())
}

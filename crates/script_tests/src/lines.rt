//! Which lines are good, and which bad line is named.

use script_text::{ScriptFault, parse_script};
use std::alloc::{AllocError, Global};
use std::process::Abort;
use std::test::Fail;

/// A text, and its first bad line, counted from 1; 0 where it is a script.
#[derive(Clone, Copy)]
struct Row(&'static str, u64);

/// Lines of any kind.
const GENERAL: [Row; 19] = [
    Row("", 0),
    Row("\n\n", 0),
    Row("#", 0),
    Row("# a\n\n#merge x\n", 0),
    // A last line without LF.
    Row("merge", 0),
    Row("merge\n", 0),
    Row("\n# a\njump", 3),
    // The first of two.
    Row("\n# a\njump\njump", 3),
    // A space before.
    Row(" # a", 1),
    Row(" merge", 1),
    Row(" ", 1),
    // A space after.
    Row("merge ", 1),
    Row("merge x", 1),
    Row("merge\r", 1),
    Row("Merge", 1),
    Row("close", 0),
    Row("close\nclose", 0),
    Row("close ", 1),
    Row("clos", 1),
];

/// Settings.
const SETTINGS: [Row; 17] = [
    Row("first 0", 0),
    Row("first 18446744073709551615", 0),
    Row("first 18446744073709551616", 1),
    Row("first 01", 1),
    Row("first +1", 1),
    Row("first ", 1),
    Row("first", 1),
    Row("first 1 ", 1),
    Row("first  1", 1),
    Row("run 0", 0),
    Row("run x", 1),
    Row("first 1\nrun 1", 0),
    // Twice.
    Row("run 1\n\nrun 1", 3),
    Row("first 1\nfirst 2", 2),
    // After an event.
    Row("merge\nfirst 1", 2),
    Row("open c {}\nlook c\nrun 7", 3),
    Row("death r\n# a\nlimit line 1", 3),
];

/// Limits.
const LIMITS: [Row; 28] = [
    Row("limit line 67108864", 0),
    Row("limit line 67108865", 1),
    Row("limit request 65536", 0),
    Row("limit request 65537", 1),
    Row("limit wait_blocks 1024", 0),
    Row("limit wait_blocks 1025", 1),
    Row("limit wait_bytes 536870912", 0),
    Row("limit wait_bytes 536870913", 1),
    Row("limit history 4194304", 0),
    Row("limit history 4194305", 1),
    Row("limit chunk 256", 0),
    Row("limit chunk 257", 1),
    Row("limit deaths 5", 0),
    Row("limit deaths 6", 1),
    Row("limit hold 1000000", 0),
    Row("limit hold 1000001", 1),
    // One, were it cut to 32 bits.
    Row("limit hold 4294967297", 1),
    Row("limit line 1", 0),
    Row("limit line 0", 1),
    Row("limit chunk 0", 1),
    Row("limit line 01", 1),
    Row("limit line ", 1),
    Row("limit line", 1),
    Row("limit", 1),
    Row("limit ", 1),
    Row("limit height 1", 1),
    Row("limit hold 3\nlimit hold 3", 2),
    Row("limit hold 3\nlimit line 3", 0),
];

/// Events and their parts.
const EVENTS: [Row; 37] = [
    Row("bytes r AQ==", 0),
    // No bytes.
    Row("bytes r ", 0),
    Row("bytes r", 1),
    Row("bytes", 1),
    // Not padded.
    Row("bytes r AQ", 1),
    Row("bytes r AQ=", 1),
    // Bits after the last byte.
    Row("bytes r AR==", 1),
    Row("bytes r AQ== ", 1),
    Row("bytes r +/8=", 0),
    // Another alphabet.
    Row("bytes r -_8=", 1),
    Row("line r a", 0),
    Row("line r ", 0),
    Row("line r", 1),
    Row("line r  a ", 0),
    Row("line  a", 1),
    Row("death r", 0),
    Row("death r ", 1),
    Row("death", 1),
    Row("death ", 1),
    Row("open c {}", 0),
    Row("open c ", 0),
    Row("open c", 1),
    Row("open", 1),
    Row("open c \nlook c", 0),
    Row("open c \nlook c ", 2),
    Row("open c \nlook", 2),
    Row("open c \npart c 1", 0),
    Row("open c \npart c 0", 2),
    Row("open c \npart c 01", 2),
    Row("open c \npart c ", 2),
    Row("open c \npart c", 2),
    Row("open c \npart c 1 ", 2),
    Row("open c \npart c 18446744073709551615", 0),
    Row("open c \npart c 18446744073709551616", 2),
    Row("open c \ndrop c", 0),
    Row("open c \ndrop c ", 2),
    Row("open c \ndrop", 2),
];

/// Names, and whose they are.
const NAMES: [Row; 27] = [
    // 32 bytes.
    Row("death abcdefghijklmnopqrstuvwxyz_01234", 0),
    // 33 bytes.
    Row("death abcdefghijklmnopqrstuvwxyz_012345", 1),
    Row("death R", 1),
    Row("death r-1", 1),
    Row("death _", 0),
    Row("death load", 1),
    Row("death merge", 1),
    Row("open load {}", 1),
    Row("death loads", 0),
    // Never opened.
    Row("look c", 1),
    Row("part c 1", 1),
    Row("drop c", 1),
    Row("open c \nlook d", 2),
    // A reader.
    Row("death r\nopen r {}", 2),
    Row("line r a\nlook r", 2),
    Row("line r a\npart r 1", 2),
    Row("line r a\ndrop r", 2),
    // A client.
    Row("open c \ndeath c", 2),
    Row("open c \nline c a", 2),
    Row("open c \nbytes c ", 2),
    Row("open c \ndrop c\ndeath c", 3),
    // Open.
    Row("open c \nopen c ", 2),
    Row("open c \nlook c\nopen c ", 3),
    Row("open c \ndrop c\nopen c ", 0),
    Row(
        "open c \ndrop c\nlook c\npart c 1\ndrop c\nopen c \nopen c ",
        7,
    ),
    // Dropped, but another.
    Row("open c \nopen d \ndrop d\nopen d \ndrop c\nopen d ", 6),
    Row(
        "death r\nopen c \nline s a\nlook c\nbytes r AQ==\ndeath s",
        0,
    ),
];

/// The first bad line; 0 where the text is a script.
fn bad_line(alloc: Global, text: &str) -> Result<u64, Fail> {
    match parse_script(alloc, text.as_bytes()) {
        Ok(_) => Ok(0),
        Err(ScriptFault::BadScript { line }) => Ok(line),
        Err(ScriptFault::Mem) => Err(AllocError.into()),
    }
}

/// Whether each text has its bad line.
fn are_answered(rt: HostRuntime, rows: &[Row]) -> Result<bool, Fail> {
    for row in rows {
        let line = bad_line(rt.alloc(), row.0)?;
        if line != row.1 {
            return Ok(false);
        }
    }
    Ok(true)
}

#[test]
fn empty_lines_and_comments_say_nothing(rt: HostRuntime) -> Result<(), Fail> {
    let answered = are_answered(rt, GENERAL.as_slice())?;
    assert!(rt; answered);
    Ok(())
}

#[test]
fn settings_come_first_and_once(rt: HostRuntime) -> Result<(), Fail> {
    let answered = are_answered(rt, SETTINGS.as_slice())?;
    assert!(rt; answered);
    Ok(())
}

#[test]
fn limits_have_names_and_greatest_values(rt: HostRuntime) -> Result<(), Fail> {
    let answered = are_answered(rt, LIMITS.as_slice())?;
    assert!(rt; answered);
    Ok(())
}

#[test]
fn events_have_their_parts(rt: HostRuntime) -> Result<(), Fail> {
    let answered = are_answered(rt, EVENTS.as_slice())?;
    assert!(rt; answered);
    Ok(())
}

#[test]
fn names_are_of_readers_or_clients(rt: HostRuntime) -> Result<(), Fail> {
    let answered = are_answered(rt, NAMES.as_slice())?;
    assert!(rt; answered);
    Ok(())
}

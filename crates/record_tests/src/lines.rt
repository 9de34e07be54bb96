//! Texts with answers worked out by hand.

use fire_lines::{LineFault, LineReader, print_block, print_init};
use std::alloc::{AllocError, Global};
use std::test::Fail;

/// How many blocks there are, how many lines, and the fault.
type Outcome = (usize, u64, Option<LineFault>);

/// What a text gives that is fed in these pieces, under a limit of so many bytes.
fn outcome(alloc: Global, max: usize, pieces: &[&str]) -> Outcome {
    let mut reader = LineReader::new(alloc, max);
    let mut blocks = Vec::new(alloc);
    let mut answer = Ok(());
    for piece in pieces {
        answer = reader.feed(piece.as_bytes(), &mut blocks);
    }
    (blocks.len(), reader.lines(), answer.err())
}

const BAD_INIT: Option<LineFault> = Some(LineFault::BadInit { line: 1 });

const CHANGED: Option<LineFault> = Some(LineFault::InitChanged { line: 2 });

const TOO_LONG: Option<LineFault> = Some(LineFault::TooLong { line: 1 });

/// Under a limit of 1,000 bytes.
const RUNS: &[(&str, Outcome)] = &[
    ("", (0, 0, None)),
    (
        "a log\nFIRE INIT 3.0 t\n\nFIREBLOCK\nFIRE\nFIRE \nFIRE LOG x\nFIRE BLOCK 1 a1 0 a0 0 5 \n",
        (1, 8, None),
    ),
    ("FIRE INIT 1.0 t \n", (0, 1, None)),
    (
        "FIRE INIT 3.0 t\nFIRE INIT 3.0 t x\r\nFIRE BLOCK 1 a1 0 a0 0 5 \r\n",
        (1, 3, None),
    ),
    ("FIRE INIT 3.0 t\nFIRE INIT 3.0 u\n", (0, 1, CHANGED)),
    ("FIRE INIT 3.0 t\nFIRE INIT 1.0 t\n", (0, 1, CHANGED)),
    (
        "FIRE INIT 3.0 t\nFIRE INIT 2.0 t\n",
        (0, 1, Some(LineFault::BadInit { line: 2 })),
    ),
    ("FIRE INIT\n", (0, 0, BAD_INIT)),
    ("FIRE INIT 3.0\n", (0, 0, BAD_INIT)),
    ("FIRE INIT 3.0 \n", (0, 0, BAD_INIT)),
    ("FIRE INIT  3.0 t\n", (0, 0, BAD_INIT)),
    ("FIRE INIT 3 t\n", (0, 0, BAD_INIT)),
    ("FIRE INIT 3.0 t\r\r\n", (0, 0, BAD_INIT)),
    (
        "a log\nFIRE BLOCK x\n",
        (0, 1, Some(LineFault::NoInit { line: 2 })),
    ),
    (
        "FIRE INIT 3.0 t\nFIRE BLOCK 1 a1 0 a0 0 5 AQ==",
        (0, 1, None),
    ),
    (
        "FIRE INIT 3.0 t\nFIRE BLOCK 1 a1 0 a0 0 5 \nFIRE BLOCK 2 b2 1 a1 0 5 A\n",
        (1, 2, Some(LineFault::BadField { line: 3, field: 7 })),
    ),
    (
        "FIRE INIT 3.0 t\nFIRE BLOCK\n",
        (0, 1, Some(LineFault::BadField { line: 2, field: 1 })),
    ),
    ("FIRE INIT 3.0 t\nFIRE BLOCKS\n", (0, 2, None)),
];

/// Under a limit of ten bytes.
const LIMITED: &[(&str, Outcome)] = &[
    ("FIRE 01234\r\n", (0, 1, None)),
    ("FIRE 01234\r", (0, 0, None)),
    ("FIRE 012345\n", (0, 0, TOO_LONG)),
    ("FIRE 012345", (0, 0, TOO_LONG)),
    ("FIRE 01234\r\r\n", (0, 0, TOO_LONG)),
    ("FIRE 01234\rx", (0, 0, TOO_LONG)),
    ("a log line of any length\nFIRE 0\n", (0, 2, None)),
    (
        "FIRE 0\nFIRE 012345\nFIRE 0\n",
        (0, 1, Some(LineFault::TooLong { line: 2 })),
    ),
];

#[test]
fn runs_are_read(rt: HostRuntime) -> Result<(), Fail> {
    for (max, runs) in [(1_000, RUNS), (10, LIMITED)] {
        for (text, wanted) in runs {
            assert!(rt; outcome(rt.alloc(), max, &[*text]) == *wanted);
        }
    }
    Ok(())
}

/// The fields of block lines, and the first that is bad. None is where it is 0.
const FIELDS: &[(&str, u8)] = &[
    ("1 a1 0 a0 0 5 ", 0),
    ("0 a1 0 a0 0 0 AQ==", 0),
    ("7 a_Z9 6 A 9 0 AAEC", 0),
    (
        "18446744073709551615 a 18446744073709551614 b 18446744073709551615 18446744073709551615 ",
        0,
    ),
    ("007 a1 0 a0 0 5 AQ==", 1),
    ("18446744073709551616 a1 0 a0 0 5 AQ==", 1),
    ("+1 a1 0 a0 0 5 AQ==", 1),
    (" 1 a1 0 a0 0 5 AQ==", 1),
    ("1", 2),
    ("1 ", 2),
    ("1 a-1 0 a0 0 5 AQ==", 2),
    ("1  0 a0 0 5 AQ==", 2),
    ("1 a1", 3),
    ("1 a1 1 a0 0 5 AQ==", 3),
    ("1 a1 2 a0 0 5 AQ==", 3),
    ("1 a1 x a-0 0 5 AQ==", 3),
    ("1 a1 0", 4),
    ("1 a1 0 a.0 x 5 AQ==", 4),
    ("1 a1 0 a0", 5),
    ("1 a1 0 a0 -1 5 AQ==", 5),
    ("1 a1 0 a0 0 05 AQ=", 6),
    ("1 a1 0 a0 0 5", 7),
    ("1 a1 0 a0 0 5 AQ=", 7),
    ("1 a1 0 a0 0 5 AQ", 7),
    ("1 a1 0 a0 0 5 AR==", 7),
    ("1 a1 0 a0 0 5 A-==", 7),
    ("1 a1 0 a0 0 5 AR== x", 7),
    ("1 a1 0 a0 0 5 AQ== ", 8),
    ("1 a1 0 a0 0 5 AQ== x", 8),
];

#[test]
fn the_first_bad_field_is_named(rt: HostRuntime) -> Result<(), Fail> {
    for (fields, field) in FIELDS {
        let pieces = ["FIRE INIT 3.0 t\nFIRE BLOCK ", *fields, "\n"];
        assert!(rt; outcome(rt.alloc(), 1_000, &pieces) == outcome_of(*field));
    }
    Ok(())
}

fn outcome_of(field: u8) -> Outcome {
    match field {
        0 => (1, 2, None),
        _ => (0, 1, Some(LineFault::BadField { line: 2, field })),
    }
}

#[test]
fn a_new_run_begins_at_line_1(rt: HostRuntime) -> Result<(), Fail> {
    let mut reader = LineReader::new(rt.alloc(), 10);
    let mut blocks = Vec::new(rt.alloc());
    let first = reader.feed(b"FIRE 0\nFIRE 012345".as_slice(), &mut blocks);
    reader.end();
    let second = reader.feed(b"FIRE 012345".as_slice(), &mut blocks);
    assert!(rt; first == Err(LineFault::TooLong { line: 2 }));
    assert!(rt; second == Err(LineFault::TooLong { line: 1 }));
    Ok(())
}

/// A text, and the lines that are printed of what it says.
const SAID: &str =
    "a log\nFIRE INIT 1.0 sf.t and more\r\nFIRE BLOCK 7 a7 6 a6 5 1700000000000000000 YWJj\r\n\nFIRE BLOCK 18446744073709551615 Z_9 0 b 18446744073709551615 0 \nFIRE BLOCK 0 r 0 x 0 1 +/8=\nFIRE";

const PRINTED: &str =
    "FIRE INIT 1.0 sf.t\nFIRE BLOCK 7 a7 6 a6 5 1700000000000000000 YWJj\nFIRE BLOCK 18446744073709551615 Z_9 0 b 18446744073709551615 0 \nFIRE BLOCK 0 r 0 x 0 1 +/8=\n";

#[test]
fn a_run_is_printed(rt: HostRuntime) -> Result<(), Fail> {
    let printed = reprint(rt.alloc(), SAID)?;
    assert!(rt; printed.as_slice() == PRINTED.as_bytes());
    Ok(())
}

/// Feeds a text, and prints what it says.
fn reprint(alloc: Global, text: &str) -> Result<Vec<u8>, AllocError> {
    let mut reader = LineReader::new(alloc, 1_000);
    let mut blocks = Vec::new(alloc);
    let mut printed = Vec::new(alloc);
    if reader.feed(text.as_bytes(), &mut blocks).is_err() {
        return Ok(printed);
    }
    if let Some(kind) = reader.kind() {
        printed = print_init(alloc, kind)?;
    }
    for block in &blocks {
        let line = print_block(alloc, block)?;
        printed.extend_from_slice(line.as_slice())?;
    }
    Ok(printed)
}

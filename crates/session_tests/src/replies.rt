//! Replies, read.

use reply_reader::{Reply, ReplyFault, read_reply};
use std::alloc::{AllocError, Global};
use std::process::Abort;
use std::test::Fail;

const OPEN: &str = "{\"open\":\"b\",\"run\":7,\"end\":null,\"lib\":{\"num\":1,\"id\":\"a1\"}}";

const STEP: &str =
    "{\"step\":\"new\",\"num\":2,\"id\":\"b2\",\"parent_num\":1,\"parent_id\":\"a1\",\"lib_num\":1,\"time\":0,\"payload\":\"AQ==\",\"digest\":\"4bf5122f344554c53bde2ebb8cd2b7e3d1600ad631c385a5d7cce23c7785459a\",\"cursor\":\"YzE6MToyOmIyOjE6YTEvNy80\"}";

const OLD: &str =
    "{\"step\":\"new\",\"num\":2,\"id\":\"b2\",\"parent_num\":1,\"parent_id\":\"a1\",\"lib_num\":1,\"time\":0,\"payload\":\"AQ==\",\"cursor\":\"YzE6MToyOmIyOjE6YTEvNy80\"}";

const HEAD: &str = "{\"head\":{\"num\":2,\"id\":\"b2\"},\"seen\":4}";

const END: &str = "{\"end\":\"done\"}";

const MISSING: &str = "{\"error\":\"missing\",\"name\":\"one/a\\u001f\"}";

/// A line with one byte changed, and the number that it says; none where it says nothing.
type Change = (&'static str, usize, u8, Option<u64>);

const CHANGES: [Change; 21] = [
    // Another run.
    (OPEN, 18, b'8', Some(8)),
    // A number with a sign.
    (OPEN, 18, b'-', None),
    // A type with a space.
    (OPEN, 9, b' ', None),
    // A quote that is not escaped.
    (OPEN, 9, b'"', None),
    // No null.
    (OPEN, 29, b'L', None),
    // Another block.
    (STEP, 20, b'3', Some(3)),
    // A parent with the block's number.
    (STEP, 45, b'2', None),
    // An id with a dash.
    (STEP, 28, b'-', None),
    // No step.
    (STEP, 11, b'W', None),
    // Another payload than that of the digest.
    (STEP, 96, b'B', None),
    // Bits after the last byte of a payload.
    (STEP, 97, b'R', None),
    // A digest in upper case.
    (STEP, 113, b'B', None),
    // Another digest.
    (STEP, 112, b'5', None),
    // A cursor that is none.
    (STEP, 189, b'=', None),
    // No brace at the end.
    (STEP, 213, b' ', None),
    // Another payload, and no digest.
    (OLD, 96, b'B', Some(2)),
    // Another length.
    (HEAD, 35, b'0', Some(0)),
    // No block.
    (HEAD, 8, b'[', None),
    // No end.
    (END, 8, b'D', None),
    // An escape in upper case.
    (MISSING, 37, b'F', None),
    // Another name.
    (MISSING, 31, b'b', Some(40)),
];

/// A run, a block's number, a length, whether it is done, or the length of a line.
fn number_in(reply: &Reply) -> u64 {
    match reply {
        Reply::Open { run, .. } => *run,
        Reply::Step { block, .. } => block.num,
        Reply::Head { seen, .. } => *seen,
        Reply::End { done } => u64::from(*done),
        Reply::Error { line } => line.as_bytes().len() as u64,
    }
}

/// The number that a line says, if it says anything.
fn number_of(alloc: Global, line: &[u8]) -> Result<Option<u64>, Fail> {
    match read_reply(alloc, line) {
        Ok(reply) => Ok(Some(number_in(&reply))),
        Err(ReplyFault::BadReply) => Ok(None),
        Err(ReplyFault::Mem) => Err(AllocError.into()),
    }
}

/// The line with this byte there.
fn changed(alloc: Global, line: &[u8], at: usize, byte: u8) -> Result<Vec<u8>, Fail> {
    let mut text = Vec::new(alloc);
    text.extend_from_slice(line)?;
    if at < text.len() {
        text[at] = byte;
    }
    Ok(text)
}

const LINES: [(&'static str, u64); 6] = [
    (OPEN, 7),
    (STEP, 2),
    (OLD, 2),
    (HEAD, 4),
    (END, 1),
    (MISSING, 40),
];

#[test]
fn lines_are_read(rt: HostRuntime) -> Result<(), Fail> {
    let alloc = rt.alloc();
    for (line, number) in LINES {
        let read = number_of(alloc, line.as_bytes())?;
        assert!(rt; read == Some(number), "{line}");
    }
    Ok(())
}

#[test]
fn a_changed_byte_says_something_else_or_nothing(rt: HostRuntime) -> Result<(), Fail> {
    let alloc = rt.alloc();
    for (line, at, byte, number) in CHANGES {
        let text = changed(alloc, line.as_bytes(), at, byte)?;
        let read = number_of(alloc, text.as_slice())?;
        assert!(rt; read == number, "{line} at {at}");
    }
    Ok(())
}

//! Cursors and their texts, with answers worked out by hand from the rules.

use crate::ids::{At, Named, reference_at, reference_of};
use base64::engine::general_purpose::URL_SAFE_NO_PAD;
use chain_model::{Mode, Place, Step};
use std::alloc::Global;
use std::process::Abort;
use std::test::Fail;
use step_cursor::{
    Cursor, CursorFault, Request, Tail, parse_cursor, print_cursor, printed_is_read,
};

/// A cursor: its step, its block, the end, the lib, and the run with what was seen.
type Fields = (Step, Named, At, At, Option<(u64, u64)>);

fn cursor(alloc: Global, (step, block, end, lib, tail): Fields) -> Result<Cursor, Fail> {
    let block = reference_of(alloc, block)?;
    let end = reference_at(alloc, end)?;
    let lib = reference_at(alloc, lib)?;
    Ok(Cursor {
        step,
        block,
        place: Place { end, lib },
        tail: tail.map(|(run, seen)| Tail { run, seen }),
    })
}

const A1: Named = (1, "a1");

const B3: Named = (3, "b3");

const B4: Named = (4, "b4");

/// Plain texts, their base64url without padding, and the cursors that they are.
const VALUES: [(&str, &str, Fields); 8] = [
    (
        "c1:17:1:a1:1:a1/700/1",
        "YzE6MTc6MTphMToxOmExLzcwMC8x",
        (Step::NewFinal, A1, Some(A1), Some(A1), Some((700, 1))),
    ),
    (
        "c1:1:4:b4:0:-",
        "YzE6MTo0OmI0OjA6LQ",
        (Step::New, B4, Some(B4), None, None),
    ),
    (
        "c1:1:4:b4:1:a1",
        "YzE6MTo0OmI0OjE6YTE",
        (Step::New, B4, Some(B4), Some(A1), None),
    ),
    (
        "c2:16:1:a1:4:b4/7/9",
        "YzI6MTY6MTphMTo0OmI0LzcvOQ",
        (Step::Final, A1, Some(B4), Some(A1), Some((7, 9))),
    ),
    (
        "c2:16:1:a1:0:-",
        "YzI6MTY6MTphMTowOi0",
        (Step::Final, A1, None, Some(A1), None),
    ),
    (
        "c3:2:4:b4:3:b3:1:a1/7/9",
        "YzM6Mjo0OmI0OjM6YjM6MTphMS83Lzk",
        (Step::Undo, B4, Some(B3), Some(A1), Some((7, 9))),
    ),
    (
        "c3:1:4:b4:0:-:0:-",
        "YzM6MTo0OmI0OjA6LTowOi0",
        (Step::New, B4, None, None, None),
    ),
    (
        "c3:1:4:b4:4:b3:3:b4",
        "YzM6MTo0OmI0OjQ6YjM6MzpiNA",
        (Step::New, B4, Some((4, "b3")), Some((3, "b4")), None),
    ),
];

fn spell(alloc: Global, plain: &str) -> Result<Vec<u8>, Fail> {
    let text = URL_SAFE_NO_PAD.encode(alloc, plain.as_bytes())?;
    Ok(text.into_bytes())
}

#[test]
fn each_cursor_has_one_text(rt: HostRuntime) -> Result<(), Fail> {
    let alloc = rt.alloc();
    printed_is_read();
    for (plain, text, fields) in VALUES {
        let value = cursor(alloc, fields)?;
        let printed = print_cursor(alloc, &value)?;
        assert!(rt;
            printed.as_slice() == text.as_bytes(),
            "the text of {plain}"
        );
        assert!(rt;
            spell(alloc, plain)?.as_slice() == text.as_bytes(),
            "base64url of {plain}"
        );
        let read = parse_cursor(alloc, text.as_bytes())?;
        assert!(rt; read == value, "the cursor of {plain}");
    }
    Ok(())
}

fn expect_fault(rt: &impl Abort, alloc: Global, text: &[u8], at: u8) {
    match parse_cursor(alloc, text) {
        Err(CursorFault::Malformed { at: found }) => {
            assert!(rt; found == at, "{text:?} is bad at {found}, not at {at}");
        }
        _ => assert!(rt; false, "{text:?} is not refused at {at}"),
    }
}

/// Texts that are not base64url without padding in its one spelling.
const NO_BASE64URL: [&str; 7] = [
    "abc=",
    "A",
    "YR",
    "YzE6MTc6MTphMToxOmExLzcwMC8x=",
    "YzE6M",
    "YzE6MTc6MTphMToxOmEx/zcwMC8x",
    "YzE6MTc6MTphMToxOmExLzcwMC8x\n",
];

#[test]
fn a_text_that_is_no_base64url_is_bad_at_0(rt: HostRuntime) {
    for text in NO_BASE64URL {
        expect_fault(&rt, rt.alloc(), text.as_bytes(), 0);
    }
}

/// Plain texts, each with the place of its first bad part.
const FAULTS: [(&str, u8); 33] = [
    ("", 1),
    ("c1", 2),
    ("c1:1", 3),
    ("c1:1:4", 4),
    ("c1:1:4:b4", 5),
    ("c1:1:4:b4:1", 6),
    ("c3:1:4:b4:3:b3", 7),
    ("c3:1:4:b4:3:b3:1", 8),
    ("c4:1:1:a1:1:a1", 1),
    ("C1:1:1:a1:1:a1", 1),
    ("c1:3:1:a1:1:a1", 2),
    ("c1:01:1:a1:1:a1", 2),
    ("c1:1:01:a1:1:a1", 3),
    ("c1:1:18446744073709551616:a1:1:a1", 3),
    ("c1:1:4:b-4:1:a1", 4),
    ("c1:1:0:-:1:a1", 4),
    ("c1:1:4:b4:00:-", 5),
    ("c1:1:4:b4:5:-", 6),
    ("c3:1:4:b4:3:b3:00:-", 7),
    ("c3:1:4:b4:3:b3:5:-", 8),
    ("c1:1:4:b4:1:a1/", 9),
    ("c1:1:4:b4:1:a1/x/1", 9),
    ("c1:1:4:b4:1:a1/7", 10),
    ("c1:1:4:b4:1:a1/7/", 10),
    ("c1:1:4:b4:1:a1/7/1/2", 10),
    ("c1:1:4:b4:1:a1:2", 11),
    ("c1:1:4:b4:1:a1:2/7", 10),
    ("c1:1:4:b4:1:a1:", 11),
    ("c2:1:4:b4:4:b4", 11),
    ("c3:1:4:b4:4:b4:1:a1", 11),
    ("c3:1:4:b4:3:b3:4:b4", 11),
    ("c3:1:4:b4:0:-:4:b4", 11),
    ("c3:1:4:b4:3:b3:1:a1:0", 11),
];

#[test]
fn the_first_bad_part_is_named(rt: HostRuntime) -> Result<(), Fail> {
    for (plain, at) in FAULTS {
        let text = spell(rt.alloc(), plain)?;
        expect_fault(&rt, rt.alloc(), text.as_slice(), at);
    }
    Ok(())
}

/// A plain text, the index of a byte, what the byte becomes, and the place of the first bad part then.
type Change = (&'static str, usize, u8, u8);

/// Changes of a single byte that tell most.
const CHANGES: [Change; 22] = [
    ("c1:17:1:a1:1:a1/700/1", 0, b'd', 1),
    ("c1:17:1:a1:1:a1/700/1", 2, b'/', 2),
    ("c1:17:1:a1:1:a1/700/1", 4, b'8', 2),
    ("c1:17:1:a1:1:a1/700/1", 5, b'0', 2),
    ("c1:17:1:a1:1:a1/700/1", 6, b'-', 3),
    ("c1:17:1:a1:1:a1/700/1", 7, b'/', 4),
    ("c1:17:1:a1:1:a1/700/1", 10, b'/', 5),
    ("c1:17:1:a1:1:a1/700/1", 12, b'/', 6),
    ("c1:17:1:a1:1:a1/700/1", 15, b':', 10),
    ("c1:17:1:a1:1:a1/700/1", 16, b'0', 9),
    ("c1:17:1:a1:1:a1/700/1", 19, b':', 9),
    ("c1:17:1:a1:1:a1/700/1", 20, b'/', 10),
    ("c1:1:4:b4:0:-", 1, b'3', 7),
    ("c1:1:4:b4:0:-", 10, b'1', 6),
    ("c1:1:4:b4:0:-", 12, b'.', 6),
    ("c2:16:1:a1:4:b4/7/9", 12, b'/', 6),
    ("c2:16:1:a1:1:b1/7/9", 13, b'a', 11),
    ("c3:2:4:b4:3:b3:1:a1", 1, b'1', 11),
    ("c3:2:4:b4:3:b4:1:a1", 10, b'4', 11),
    ("c3:2:4:b4:3:b3:4:a4", 17, b'b', 11),
    ("c3:1:4:b4:0:-:0:-", 14, b'1', 8),
    ("c3:1:4:b4:0:-:0:-", 13, b'/', 7),
];

#[test]
fn a_changed_byte_is_bad_at_its_part(rt: HostRuntime) -> Result<(), Fail> {
    let alloc = rt.alloc();
    for (plain, index, byte, at) in CHANGES {
        let mut changed = Vec::from_slice(alloc, plain.as_bytes())?;
        if index < changed.len() {
            changed[index] = byte;
        }
        let text = URL_SAFE_NO_PAD.encode(alloc, changed.as_slice())?;
        expect_fault(&rt, alloc, text.as_bytes(), at);
    }
    Ok(())
}

#[test]
fn a_request_may_bring_a_cursor(rt: HostRuntime) -> Result<(), Fail> {
    let alloc = rt.alloc();
    let (_, text, _) = VALUES[0];
    let request = Request {
        start: 0,
        stop: None,
        mode: Mode::Live,
        cursor: Some(parse_cursor(alloc, text.as_bytes())?),
    };
    assert!(rt; request.clone()? == request);
    Ok(())
}

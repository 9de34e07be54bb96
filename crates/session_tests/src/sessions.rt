//! Sessions at small relays, with the lines that are asked for.

use crate::plants::{Event, Plant};
use history_tests::blocks::Whole;
use reply_text::{ErrorLine, RequestField, print_error};
use request_text::{RequestFault, parse_request};
use std::alloc::{AllocError, Global};
use std::process::Abort;
use std::test::Fail;
use step_cursor::Request;

const A1: Whole = (1, "a1", 0, "a0", 0, &[1]);

const B2: Whole = (2, "b2", 1, "a1", 1, &[1]);

const C2: Whole = (2, "c2", 1, "a1", 1, &[1]);

const D3: Whole = (3, "d3", 2, "c2", 1, &[1]);

const C3: Whole = (3, "c3", 2, "b2", 2, &[1]);

/// The block beside b2 whose lib number makes it final itself.
const LATE: Whole = (2, "c2", 1, "a1", 2, &[1]);

const LOOK: Event = Event::Look(None);

/// A block, and two looks.
const ONE: &[Event] = &[Event::Offer(&[A1]), LOOK, LOOK];

const CHAIN: &[Event] = &[Event::Offer(&[A1, B2, C3]), LOOK, LOOK];

const CLOSED: &[Event] = &[Event::Offer(&[A1, B2, C3]), Event::Close, LOOK, LOOK];

/// A late final block rules out a longer branch.
const FORK: &[Event] = &[
    Event::Offer(&[
        A1,
        B2,
        (3, "b3", 2, "b2", 1, &[1]),
        (4, "b4", 3, "b3", 1, &[1]),
        LATE,
    ]),
    LOOK,
    LOOK,
];

/// A branch becomes longer than the first one.
const SWITCH: &[Event] = &[Event::Offer(&[A1, B2, C2, D3]), LOOK, LOOK];

/// A request line, what happens at a relay, and what the client is sent.
#[derive(Clone, Copy)]
struct Row {
    line: &'static str,
    events: &'static [Event],
    lines: &'static [&'static str],
}

const OPEN_START: &str = r#"{"open":"test.Block","run":700,"end":null,"lib":null}"#;

const OPEN_A1: &str =
    r#"{"open":"test.Block","run":700,"end":{"num":1,"id":"a1"},"lib":{"num":1,"id":"a1"}}"#;

const ROWS: [Row; 16] = [
    Row {
        line: " ",
        events: ONE,
        lines: &[r#"{"error":"bad_request","field":"shape"}"#],
    },
    // One block, and a look with nothing new.
    Row {
        line: "{}",
        events: ONE,
        lines: &[
            OPEN_START,
            r#"{"step":"newfinal","num":1,"id":"a1","parent_num":0,"parent_id":"a0","lib_num":0,"time":0,"payload":"AQ==","digest":"4bf5122f344554c53bde2ebb8cd2b7e3d1600ad631c385a5d7cce23c7785459a","cursor":"YzE6MTc6MTphMToxOmExLzcwMC8x"}"#,
            r#"{"head":{"num":1,"id":"a1"},"seen":1}"#,
        ],
    },
    // A stop at a final block.
    Row {
        line: r#"{"stop_block_num":2}"#,
        events: CHAIN,
        lines: &[
            OPEN_START,
            r#"{"step":"newfinal","num":1,"id":"a1","parent_num":0,"parent_id":"a0","lib_num":0,"time":0,"payload":"AQ==","digest":"4bf5122f344554c53bde2ebb8cd2b7e3d1600ad631c385a5d7cce23c7785459a","cursor":"YzE6MTc6MTphMToxOmExLzcwMC8z"}"#,
            r#"{"step":"newfinal","num":2,"id":"b2","parent_num":1,"parent_id":"a1","lib_num":1,"time":0,"payload":"AQ==","digest":"4bf5122f344554c53bde2ebb8cd2b7e3d1600ad631c385a5d7cce23c7785459a","cursor":"YzE6MTc6MjpiMjoyOmIyLzcwMC8z"}"#,
            r#"{"head":{"num":2,"id":"b2"},"seen":3}"#,
            r#"{"end":"done"}"#,
        ],
    },
    // c1:1:3:c3:1:a1
    Row {
        line: r#"{"cursor":"YzE6MTozOmMzOjE6YTE","stop_block_num":1}"#,
        events: CHAIN,
        lines: &[r#"{"error":"stop_below","end":3}"#],
    },
    Row {
        line: r#"{"cursor":"!"}"#,
        events: CHAIN,
        lines: &[r#"{"error":"malformed","at":0}"#],
    },
    // c1:1:9:zz:1:a1
    Row {
        line: r#"{"cursor":"YzE6MTo5Onp6OjE6YTE"}"#,
        events: CHAIN,
        lines: &[r#"{"error":"unknown","id":"zz"}"#],
    },
    // c1:1:4:b4:2:c2
    Row {
        line: r#"{"cursor":"YzE6MTo0OmI0OjI6YzI"}"#,
        events: FORK,
        lines: &[r#"{"error":"misfit","field":"lib"}"#],
    },
    // c1:1:4:b4:0:-
    Row {
        line: r#"{"cursor":"YzE6MTo0OmI0OjA6LQ"}"#,
        events: FORK,
        lines: &[r#"{"error":"misfit","field":"lib"}"#],
    },
    // c1:16:3:c3:2:b2
    Row {
        line: r#"{"cursor":"YzE6MTY6MzpjMzoyOmIy"}"#,
        events: CHAIN,
        lines: &[r#"{"error":"misfit","field":"step"}"#],
    },
    // c1:1:2:c3:1:a1
    Row {
        line: r#"{"cursor":"YzE6MToyOmMzOjE6YTE"}"#,
        events: CHAIN,
        lines: &[r#"{"error":"misfit","field":"block"}"#],
    },
    // c1:17:1:a1:1:a1/700/9: more than the run has, which waits while the relay is open
    Row {
        line: r#"{"cursor":"YzE6MTc6MTphMToxOmExLzcwMC85"}"#,
        events: CHAIN,
        lines: &[],
    },
    Row {
        line: r#"{"cursor":"YzE6MTc6MTphMToxOmExLzcwMC85"}"#,
        events: CLOSED,
        lines: &[r#"{"error":"misfit","field":"seen"}"#],
    },
    // c1:17:1:a1:1:a1/701/9: of another run
    Row {
        line: r#"{"cursor":"YzE6MTc6MTphMToxOmExLzcwMS85"}"#,
        events: CHAIN,
        lines: &[
            OPEN_A1,
            r#"{"step":"newfinal","num":2,"id":"b2","parent_num":1,"parent_id":"a1","lib_num":1,"time":0,"payload":"AQ==","digest":"4bf5122f344554c53bde2ebb8cd2b7e3d1600ad631c385a5d7cce23c7785459a","cursor":"YzE6MTc6MjpiMjoyOmIyLzcwMC8z"}"#,
            r#"{"step":"new","num":3,"id":"c3","parent_num":2,"parent_id":"b2","lib_num":2,"time":0,"payload":"AQ==","digest":"4bf5122f344554c53bde2ebb8cd2b7e3d1600ad631c385a5d7cce23c7785459a","cursor":"YzE6MTozOmMzOjI6YjIvNzAwLzM"}"#,
            r#"{"head":{"num":3,"id":"c3"},"seen":3}"#,
        ],
    },
    Row {
        line: r#"{"cursor":"","final_blocks_only":1}"#,
        events: CHAIN,
        lines: &[r#"{"error":"bad_request","field":"final_blocks_only"}"#],
    },
    Row {
        line: r#"{"start":1}"#,
        events: CHAIN,
        lines: &[r#"{"error":"bad_request","field":"extra"}"#],
    },
    // c3:2:2:b2:1:a1:1:a1/700/4, the cursor of an undo
    Row {
        line: r#"{"cursor":"YzM6MjoyOmIyOjE6YTE6MTphMS83MDAvNA"}"#,
        events: SWITCH,
        lines: &[
            OPEN_A1,
            r#"{"step":"new","num":2,"id":"c2","parent_num":1,"parent_id":"a1","lib_num":1,"time":0,"payload":"AQ==","digest":"4bf5122f344554c53bde2ebb8cd2b7e3d1600ad631c385a5d7cce23c7785459a","cursor":"YzE6MToyOmMyOjE6YTEvNzAwLzQ"}"#,
            r#"{"step":"new","num":3,"id":"d3","parent_num":2,"parent_id":"c2","lib_num":1,"time":0,"payload":"AQ==","digest":"4bf5122f344554c53bde2ebb8cd2b7e3d1600ad631c385a5d7cce23c7785459a","cursor":"YzE6MTozOmQzOjE6YTEvNzAwLzQ"}"#,
            r#"{"head":{"num":3,"id":"d3"},"seen":4}"#,
        ],
    },
];

#[test]
fn a_client_is_sent_these_lines(rt: HostRuntime) -> Result<(), Fail> {
    for row in ROWS {
        assert!(rt; holds(rt.alloc(), row)?, "{}", row.line);
    }
    Ok(())
}

/// The last line has cursor c3:2:2:b2:1:a1:1:a1/700/4.
const CUT_OFF: Row = Row {
    line: "{}",
    events: &[
        Event::Offer(&[A1, B2]),
        LOOK,
        LOOK,
        Event::Offer(&[C2, D3]),
        Event::Look(Some(1)),
    ],
    lines: &[
        OPEN_START,
        r#"{"step":"newfinal","num":1,"id":"a1","parent_num":0,"parent_id":"a0","lib_num":0,"time":0,"payload":"AQ==","digest":"4bf5122f344554c53bde2ebb8cd2b7e3d1600ad631c385a5d7cce23c7785459a","cursor":"YzE6MTc6MTphMToxOmExLzcwMC8y"}"#,
        r#"{"step":"new","num":2,"id":"b2","parent_num":1,"parent_id":"a1","lib_num":1,"time":0,"payload":"AQ==","digest":"4bf5122f344554c53bde2ebb8cd2b7e3d1600ad631c385a5d7cce23c7785459a","cursor":"YzE6MToyOmIyOjE6YTEvNzAwLzI"}"#,
        r#"{"head":{"num":2,"id":"b2"},"seen":2}"#,
        r#"{"step":"undo","num":2,"id":"b2","parent_num":1,"parent_id":"a1","lib_num":1,"time":0,"payload":"AQ==","digest":"4bf5122f344554c53bde2ebb8cd2b7e3d1600ad631c385a5d7cce23c7785459a","cursor":"YzM6MjoyOmIyOjE6YTE6MTphMS83MDAvNA"}"#,
    ],
};

#[test]
fn a_client_is_cut_off_after_an_undo(rt: HostRuntime) -> Result<(), Fail> {
    assert!(rt; holds(rt.alloc(), CUT_OFF)?);
    Ok(())
}

/// From cursor c1:1:2:b2:1:a1. Of the blocks that are sent the first two stand in files, one off the
/// final path, and the last one is held.
const FROM_FILES: Row = Row {
    line: r#"{"cursor":"YzE6MToyOmIyOjE6YTE"}"#,
    events: &[
        Event::Offer(&[A1, B2, LATE, (105, "z5", 2, "c2", 105, &[1])]),
        Event::Merge { retained: 1 },
        LOOK,
    ],
    lines: &[
        r#"{"open":"test.Block","run":700,"end":{"num":2,"id":"b2"},"lib":{"num":1,"id":"a1"}}"#,
        r#"{"step":"undo","num":2,"id":"b2","parent_num":1,"parent_id":"a1","lib_num":1,"time":0,"payload":"AQ==","digest":"4bf5122f344554c53bde2ebb8cd2b7e3d1600ad631c385a5d7cce23c7785459a","cursor":"YzM6MjoyOmIyOjE6YTE6MTphMS83MDAvNA"}"#,
        r#"{"step":"newfinal","num":2,"id":"c2","parent_num":1,"parent_id":"a1","lib_num":2,"time":0,"payload":"AQ==","digest":"4bf5122f344554c53bde2ebb8cd2b7e3d1600ad631c385a5d7cce23c7785459a","cursor":"YzE6MTc6MjpjMjoyOmMyLzcwMC80"}"#,
        r#"{"step":"newfinal","num":105,"id":"z5","parent_num":2,"parent_id":"c2","lib_num":105,"time":0,"payload":"AQ==","digest":"4bf5122f344554c53bde2ebb8cd2b7e3d1600ad631c385a5d7cce23c7785459a","cursor":"YzE6MTc6MTA1Ono1OjEwNTp6NS83MDAvNA"}"#,
        r#"{"head":{"num":105,"id":"z5"},"seen":4}"#,
    ],
};

#[test]
fn a_client_goes_from_files_to_held_blocks(rt: HostRuntime) -> Result<(), Fail> {
    assert!(rt; holds(rt.alloc(), FROM_FILES)?);
    Ok(())
}

/// Whether the client of a row is sent its lines.
fn holds(alloc: Global, row: Row) -> Result<bool, Fail> {
    match parse_request(alloc, row.line.as_bytes()) {
        Ok(request) => is_served(alloc, request, row),
        Err(fault) => is_refused(alloc, fault, row.lines),
    }
}

/// Whether a client with this request is sent the lines of a row.
fn is_served(alloc: Global, request: Request, row: Row) -> Result<bool, Fail> {
    let mut plant = Plant::new(alloc, request)?;
    let sends = sends(alloc, &mut plant, row);
    plant.close();
    sends
}

fn sends(alloc: Global, plant: &mut Plant, row: Row) -> Result<bool, Fail> {
    plant.go_through(alloc, row.events)?;
    Ok(are_lines(plant.sent(), row.lines))
}

/// Whether these lines say why a request was refused.
fn is_refused(alloc: Global, fault: RequestFault, lines: &[&str]) -> Result<bool, Fail> {
    let mut text = Vec::new(alloc);
    print_fault(fault, &mut text)?;
    Ok(are_lines(text.as_slice(), lines))
}

/// Writes why a request was refused.
fn print_fault(fault: RequestFault, out: &mut Vec<u8>) -> Result<(), AllocError> {
    match fault {
        RequestFault::BadRequest { field } => print_error(&ErrorLine::BadRequest { field }, out),
        RequestFault::Malformed { at } => print_error(&ErrorLine::Malformed { at }, out),
        RequestFault::Mem => Err(AllocError),
    }
}

/// Whether the text is these lines.
fn are_lines(text: &[u8], lines: &[&str]) -> bool {
    let mut rest = text;
    for line in lines {
        match after_line(rest, line.as_bytes()) {
            Some(after) => rest = after,
            None => return false,
        }
    }
    rest.is_empty()
}

/// The text after its first line, where it is this one.
fn after_line<'a>(text: &'a [u8], line: &[u8]) -> Option<&'a [u8]> {
    let after = text.strip_prefix(line)?;
    match after {
        [b'\n', rest @ ..] => Some(rest),
        _ => None,
    }
}

/// A request of 65,536 spaces.
#[test]
fn a_blank_line_is_no_request(rt: HostRuntime) -> Result<(), Fail> {
    let alloc = rt.alloc();
    let line = vec![in alloc; b' '; 65_536]?;
    let fault = RequestFault::BadRequest {
        field: RequestField::Shape,
    };
    assert!(rt; parse_request(alloc, line.as_slice()) == Err(fault));
    Ok(())
}

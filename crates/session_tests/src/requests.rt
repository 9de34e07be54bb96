//! Requests, read and printed.

use chain_model::Mode;
use reply_text::RequestField;
use request_text::{RequestFault, parse_request, print_request};
use std::alloc::{AllocError, Global};
use std::process::Abort;
use std::test::Fail;
use step_cursor::Request;

/// A line, with its start, its stop, whether final blocks alone are asked for, and whether it has a
/// cursor.
type Asking = (&'static str, u64, Option<u64>, Mode, bool);

const GOOD: [Asking; 20] = [
    ("{}", 0, None, Mode::Live, false),
    (" { } ", 0, None, Mode::Live, false),
    ("{\"start_block_num\":9}", 9, None, Mode::Live, false),
    (
        "{\"start_block_num\":18446744073709551615}",
        18446744073709551615,
        None,
        Mode::Live,
        false,
    ),
    ("{\"stop_block_num\":0}", 0, None, Mode::Live, false),
    ("{\"stop_block_num\":7}", 0, Some(7), Mode::Live, false),
    ("{\"final_blocks_only\":true}", 0, None, Mode::Final, false),
    ("{\"final_blocks_only\":false}", 0, None, Mode::Live, false),
    ("{\"cursor\":\"\"}", 0, None, Mode::Live, false),
    (
        "{\"cursor\":\"YzE6MTc6MTphMToxOmExLzcwMC8x\"}",
        0,
        None,
        Mode::Live,
        true,
    ),
    (
        "{\"cursor\":\"Yz\\u00456MTc6MTphMToxOmExLzcwMC8x\",\"start_block_num\":3}",
        3,
        None,
        Mode::Live,
        true,
    ),
    (
        "{\"start_block_num\":1,\"start_block_num\":2}",
        2,
        None,
        Mode::Live,
        false,
    ),
    (
        "{\"start_block_num\":null,\"start_block_num\":2}",
        2,
        None,
        Mode::Live,
        false,
    ),
    ("{\"start\\u005fblock_num\":4}", 4, None, Mode::Live, false),
    (
        "{\"start_block_num\":1,\"start\\u005fblock_num\":4}",
        4,
        None,
        Mode::Live,
        false,
    ),
    ("{\"\\u0063ursor\":\"\"}", 0, None, Mode::Live, false),
    (
        "{\"final_blocks_only\":false,\"final_blocks_only\":true}",
        0,
        None,
        Mode::Final,
        false,
    ),
    ("{\"cursor\":7,\"cursor\":\"\"}", 0, None, Mode::Live, false),
    (
        "{\"stop_block_num\": 5 , \"start_block_num\" : 6}",
        6,
        Some(5),
        Mode::Live,
        false,
    ),
    (
        "{\"final_blocks_only\":true,\"stop_block_num\":200}\r",
        0,
        Some(200),
        Mode::Final,
        false,
    ),
];

fn is_asked(request: &Request, asking: Asking) -> bool {
    let (_, start, stop, mode, has_cursor) = asking;
    request.start == start
        && request.stop == stop
        && request.mode == mode
        && request.cursor.is_some() == has_cursor
}

#[test]
fn good_lines_are_read(rt: HostRuntime) -> Result<(), Fail> {
    let alloc = rt.alloc();
    for asking in GOOD {
        match parse_request(alloc, asking.0.as_bytes()) {
            Ok(request) => assert!(rt; is_asked(&request, asking), "{}", asking.0),
            Err(fault) => assert!(rt; false, "{} is {fault:?}", asking.0),
        }
    }
    Ok(())
}

const BAD: [(&str, RequestField); 33] = [
    ("", RequestField::Shape),
    ("null", RequestField::Shape),
    ("[]", RequestField::Shape),
    ("7", RequestField::Shape),
    ("{", RequestField::Shape),
    ("{}{}", RequestField::Shape),
    ("{\"start_block_num\":00}", RequestField::Shape),
    ("{\"stop_block_num\":00}", RequestField::Shape),
    ("{\"start_block_num\":+1}", RequestField::Shape),
    ("{\"start_block_num\":1e999}", RequestField::Shape),
    ("{\"other\":1e999}", RequestField::Shape),
    ("{\"other\":1}", RequestField::Extra),
    (
        "{\"other\":null,\"start_block_num\":-1}",
        RequestField::Extra,
    ),
    (
        "{\"start_block_num\":1,\"start\\u002dblock_num\":1}",
        RequestField::Extra,
    ),
    (
        "{\"stop_block_num\":9,\"stop_block_num\":1e3}",
        RequestField::Stop,
    ),
    ("{\"start_block_num\":-1}", RequestField::Start),
    ("{\"start_block_num\":-0}", RequestField::Start),
    ("{\"start_block_num\":1.0}", RequestField::Start),
    ("{\"start_block_num\":1e3}", RequestField::Start),
    (
        "{\"start_block_num\":18446744073709551616}",
        RequestField::Start,
    ),
    ("{\"start_block_num\":null}", RequestField::Start),
    ("{\"start_block_num\":\"1\"}", RequestField::Start),
    (
        "{\"start_block_num\":2,\"start_block_num\":true}",
        RequestField::Start,
    ),
    (
        "{\"stop_block_num\":-1,\"start_block_num\":-1}",
        RequestField::Start,
    ),
    ("{\"stop_block_num\":[]}", RequestField::Stop),
    ("{\"stop_block_num\":null}", RequestField::Stop),
    (
        "{\"final_blocks_only\":0,\"stop_block_num\":{}}",
        RequestField::Stop,
    ),
    ("{\"final_blocks_only\":null}", RequestField::FinalOnly),
    ("{\"final_blocks_only\":\"true\"}", RequestField::FinalOnly),
    (
        "{\"cursor\":7,\"final_blocks_only\":0}",
        RequestField::FinalOnly,
    ),
    ("{\"cursor\":null}", RequestField::Cursor),
    ("{\"cursor\":[]}", RequestField::Cursor),
    ("{\"cursor\":\"\\ud800\"}", RequestField::Shape),
];

#[test]
fn bad_lines_are_refused_for_their_first_part(rt: HostRuntime) -> Result<(), Fail> {
    let alloc = rt.alloc();
    for (line, field) in BAD {
        match parse_request(alloc, line.as_bytes()) {
            Ok(_) => assert!(rt; false, "{line} is read"),
            Err(fault) => {
                assert!(rt;
                    fault == RequestFault::BadRequest { field },
                    "{line} is {fault:?}"
                )
            }
        }
    }
    Ok(())
}

/// A member of a request, with the one of the values below that it may have, and the part of which a
/// line with another one is refused.
#[derive(Clone, Copy)]
struct Member {
    name: &'static str,
    good: &'static str,
    field: RequestField,
}

const MEMBERS: [Member; 5] = [
    Member {
        name: "start_block_num",
        good: "7",
        field: RequestField::Start,
    },
    Member {
        name: "stop_block_num",
        good: "7",
        field: RequestField::Stop,
    },
    Member {
        name: "final_blocks_only",
        good: "true",
        field: RequestField::FinalOnly,
    },
    Member {
        name: "cursor",
        good: "\"\"",
        field: RequestField::Cursor,
    },
    Member {
        name: "other",
        good: "none",
        field: RequestField::Extra,
    },
];

/// Values of each kind, and numbers that are no number of a block.
const VALUES: [&str; 10] = [
    "null",
    "true",
    "7",
    "\"\"",
    "[]",
    "{}",
    "1.0",
    "1e3",
    "-0",
    "18446744073709551616",
];

#[test]
fn each_member_has_values_of_one_kind(rt: HostRuntime) -> Result<(), Fail> {
    let alloc = rt.alloc();
    for member in MEMBERS {
        for value in VALUES {
            let holds = is_judged(alloc, member, value)?;
            assert!(rt; holds, "{} is {value}", member.name);
        }
    }
    Ok(())
}

/// Whether a line with this member alone is read where the value is the good one, and else is refused
/// for the member.
fn is_judged(alloc: Global, member: Member, value: &str) -> Result<bool, Fail> {
    let line = member_line(alloc, member.name, value)?;
    match parse_request(alloc, line.as_slice()) {
        Ok(_) => Ok(value == member.good),
        Err(RequestFault::BadRequest { field }) => Ok(
            value != member.good && field == member.field,
        ),
        Err(fault) => Err(fault.into()),
    }
}

/// A line with one member.
fn member_line(alloc: Global, name: &str, value: &str) -> Result<Vec<u8>, AllocError> {
    let mut line = Vec::new(alloc);
    for part in ["{\"", name, "\":", value, "}"] {
        line.extend_from_slice(part.as_bytes())?;
    }
    Ok(line)
}

#[test]
fn other_lines_are_refused(rt: HostRuntime) -> Result<(), Fail> {
    let alloc = rt.alloc();
    let no_text = parse_request(alloc, b"{\"cursor\":\"\xff\"}".as_slice());
    assert!(rt;
        no_text
            == Err(RequestFault::BadRequest {
                field: RequestField::Shape
            }),
        "not UTF-8"
    );
    let no_cursor = parse_request(alloc, b"{\"cursor\":\"abc=\"}".as_slice());
    assert!(rt;
        no_cursor == Err(RequestFault::Malformed { at: 0 }),
        "no cursor"
    );
    let no_step = parse_request(alloc, b"{\"cursor\":\"YzE6MTc\"}".as_slice());
    assert!(rt;
        no_step == Err(RequestFault::Malformed { at: 3 }),
        "a cursor of two words"
    );
    Ok(())
}

/// A line whose object has a member with so many open arrays.
fn nested(alloc: Global, arrays: u8) -> Result<Vec<u8>, Fail> {
    let mut line = Vec::new(alloc);
    line.extend_from_slice(b"{\"other\":")?;
    for _ in 0..arrays {
        line.push(b'[')?;
    }
    for _ in 0..arrays {
        line.push(b']')?;
    }
    line.push(b'}')?;
    Ok(line)
}

#[test]
fn values_nest_127_deep(rt: HostRuntime) -> Result<(), Fail> {
    let alloc = rt.alloc();
    let deep = nested(alloc, 126)?;
    let taken = parse_request(alloc, deep.as_slice());
    assert!(rt;
        taken
            == Err(RequestFault::BadRequest {
                field: RequestField::Extra
            }),
        "127"
    );
    let deeper = nested(alloc, 127)?;
    let refused = parse_request(alloc, deeper.as_slice());
    assert!(rt;
        refused
            == Err(RequestFault::BadRequest {
                field: RequestField::Shape
            }),
        "128"
    );
    Ok(())
}

/// The parts that are given, and their line.
type Printed = (
    Option<&'static str>,
    Option<bool>,
    Option<u64>,
    Option<u64>,
    &'static str,
);

const PRINTED: [Printed; 6] = [
    (None, None, None, None, "{}\n"),
    (
        Some("YzE"),
        Some(true),
        Some(0),
        Some(200),
        "{\"cursor\":\"YzE\",\"final_blocks_only\":true,\"start_block_num\":0,\"stop_block_num\":200}\n",
    ),
    (
        None,
        Some(false),
        None,
        None,
        "{\"final_blocks_only\":false}\n",
    ),
    (
        None,
        None,
        Some(18446744073709551615),
        Some(0),
        "{\"start_block_num\":18446744073709551615,\"stop_block_num\":0}\n",
    ),
    (None, None, None, Some(1), "{\"stop_block_num\":1}\n"),
    (
        Some("a\"b\\c\u{1f}\u{e9}"),
        None,
        None,
        Some(3),
        "{\"cursor\":\"a\\\"b\\\\c\\u001f\u{e9}\",\"stop_block_num\":3}\n",
    ),
];

#[test]
fn lines_are_printed(rt: HostRuntime) -> Result<(), Fail> {
    let alloc = rt.alloc();
    for (cursor, final_only, start, stop, line) in PRINTED {
        let mut out = Vec::new(alloc);
        print_request(cursor, final_only, start, stop, &mut out)?;
        assert!(rt; out.as_slice() == line.as_bytes(), "{line}");
    }
    Ok(())
}

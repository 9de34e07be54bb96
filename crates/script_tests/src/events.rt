//! What is read of a script.

use block_relay::Limits;
use script_text::{Event, Script, ScriptFault, parse_script};
use std::alloc::{AllocError, Global};
use std::process::Abort;
use std::test::Fail;

const WHOLE: &str =
    "# settings\nfirst 3\nrun 700\nlimit line 1000\nlimit request 200\nlimit wait_blocks 10\nlimit wait_bytes 4096\nlimit history 50\nlimit chunk 2\nlimit deaths 4\nlimit hold 7\n\n# events\nbytes r AQ==\nline r FIRE INIT 3.0 test.Block\nline r  a \ndeath r\nopen c {\"start_block_num\":-1}\nlook c\npart c 3\ndrop c\nmerge\nclose";

/// An event by the word of its line, its name, its last bytes and its number.
#[derive(Clone, Copy)]
struct Told(&'static str, &'static str, &'static [u8], u64);

const EVENTS: [Told; 10] = [
    Told("bytes", "r", b"\x01", 0),
    Told("line", "r", b"FIRE INIT 3.0 test.Block", 0),
    Told("line", "r", b" a ", 0),
    Told("death", "r", b"", 0),
    Told("open", "c", b"{\"start_block_num\":-1}", 0),
    Told("look", "c", b"", 0),
    Told("part", "c", b"", 3),
    Told("drop", "c", b"", 0),
    Told("merge", "", b"", 0),
    Told("close", "", b"", 0),
];

/// The parts of an event, as in the table.
#[derive(Clone, Copy)]
struct Parts<'a> {
    word: &'static str,
    name: &'a [u8],
    last: &'a [u8],
    steps: u64,
}

fn parts_with<'a>(word: &'static str, name: &'a [u8], last: &'a [u8], steps: u64) -> Parts<'a> {
    Parts {
        word,
        name,
        last,
        steps,
    }
}

fn parts_of(event: &Event) -> Parts<'_> {
    let none = b"".as_slice();
    match event {
        Event::Bytes { reader, bytes } => parts_with(
            "bytes",
            reader.as_bytes(),
            bytes.as_bytes(),
            0,
        ),
        Event::Line { reader, text } => parts_with("line", reader.as_bytes(), text.as_bytes(), 0),
        Event::Death { reader } => parts_with("death", reader.as_bytes(), none, 0),
        Event::Open { client, request } => parts_with(
            "open",
            client.as_bytes(),
            request.as_bytes(),
            0,
        ),
        Event::Look { client } => parts_with("look", client.as_bytes(), none, 0),
        Event::Part { client, steps } => parts_with("part", client.as_bytes(), none, *steps),
        Event::Drop { client } => parts_with("drop", client.as_bytes(), none, 0),
        Event::Merge => parts_with("merge", none, none, 0),
        Event::Close => parts_with("close", none, none, 0),
    }
}

fn is_told(event: &Event, told: &Told) -> bool {
    let parts = parts_of(event);
    parts.word == told.0
        && parts.name == told.1.as_bytes()
        && parts.last == told.2
        && parts.steps == told.3
}

fn are_told(events: &[Event], all: &[Told]) -> bool {
    if events.len() != all.len() {
        return false;
    }
    for (event, told) in events.iter().zip(all) {
        if !is_told(event, told) {
            return false;
        }
    }
    true
}

fn parse(alloc: Global, text: &str) -> Result<Script, Fail> {
    match parse_script(alloc, text.as_bytes()) {
        Ok(script) => Ok(script),
        Err(ScriptFault::BadScript { line: _ }) => Err(Fail::from("a bad script")),
        Err(ScriptFault::Mem) => Err(AllocError.into()),
    }
}

#[test]
fn events_come_in_order(rt: HostRuntime) -> Result<(), Fail> {
    let script = parse(rt.alloc(), WHOLE)?;
    let told = are_told(script.events.as_slice(), EVENTS.as_slice());
    assert!(rt; told);
    Ok(())
}

#[test]
fn settings_have_their_values(rt: HostRuntime) -> Result<(), Fail> {
    let script = parse(rt.alloc(), WHOLE)?;
    let limits = Limits {
        line: 1000,
        request: 200,
        wait_blocks: 10,
        wait_bytes: 4096,
        history: 50,
        chunk: 2,
        deaths: 4,
        hold: 7,
    };
    assert!(rt; script.first == 3);
    assert!(rt; script.run == 700);
    assert!(rt; script.limits == limits);
    Ok(())
}

#[test]
fn without_settings_the_greatest_values_hold(rt: HostRuntime) -> Result<(), Fail> {
    let script = parse(rt.alloc(), "")?;
    let limits = Limits {
        line: 67_108_864,
        request: 65_536,
        wait_blocks: 1_024,
        wait_bytes: 536_870_912,
        history: 4_194_304,
        chunk: 256,
        deaths: 5,
        hold: 1_000_000,
    };
    assert!(rt; script.first == 0);
    assert!(rt; script.run == 0);
    assert!(rt; script.limits == limits);
    assert!(rt; script.events.is_empty());
    Ok(())
}

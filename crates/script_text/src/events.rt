//! The events of a script, by their words and what stands after them.

ghost use Rattle.std.specs.Prelude.{◌≡◌};
ghost use Rattle.script_text.specs.Lines.{bytes_event as bytes_event_of, line_event as line_event_of, open_event as open_event_of, part_event as part_event_of, reader_event as reader_event_of, event_of, lone_event as lone_event_of};
ghost use Rattle.script_text.specs.Reading.{Gives};

use crate::faults::LineFault;
use crate::script::Event;
use crate::words::{count_after, decoded, first_word, name, reader, rest};
use block_record::Bytes;
use std::alloc::Global;

/// A name, a space, and bytes in base64.
#[tactic(auto, unfolding(crate::specs::Lines::bytes_event))]
fn bytes_event(alloc: Global, text: &[u8]) -> Result<Event, LineFault>
    ensures { Gives (λ event. event) result (bytes_event_of text.now) }
{
    let reader = reader(alloc, first_word(text))?;
    let rest = rest(text)?;
    let bytes = decoded(alloc, rest)?;
    Ok(Event::Bytes { reader, bytes })
}

/// A name, a space, and any text.
#[tactic(auto, unfolding(crate::specs::Lines::line_event))]
fn line_event(alloc: Global, text: &[u8]) -> Result<Event, LineFault>
    ensures { Gives (λ event. event) result (line_event_of text.now) }
{
    let reader = reader(alloc, first_word(text))?;
    let rest = rest(text)?;
    let text = Bytes::new(alloc, rest)?;
    Ok(Event::Line { reader, text })
}

/// The same, of a client.
#[tactic(auto, unfolding(crate::specs::Lines::open_event))]
fn open_event(alloc: Global, text: &[u8]) -> Result<Event, LineFault>
    ensures { Gives (λ event. event) result (open_event_of text.now) }
{
    let client = name(alloc, first_word(text))?;
    let rest = rest(text)?;
    let request = Bytes::new(alloc, rest)?;
    Ok(Event::Open { client, request })
}

/// A name, a space, and a number of at least 1.
#[tactic(auto, unfolding(crate::specs::Lines::part_event))]
fn part_event(alloc: Global, text: &[u8]) -> Result<Event, LineFault>
    ensures { Gives (λ event. event) result (part_event_of text.now) }
{
    let client = name(alloc, first_word(text))?;
    let steps = count_after(text).ok_or(LineFault::Bad)?;
    Ok(Event::Part { client, steps })
}

/// An event of a reader's node.
fn reader_event(alloc: Global, word: &[u8], text: &[u8]) -> Result<Event, LineFault>
    ensures { Gives (λ event. event) result (reader_event_of word.now text.now) }
{
    if word == b"bytes".as_slice() {
        bytes_event(alloc, text)
    } else if word == b"line".as_slice() {
        line_event(alloc, text)
    } else if word == b"death".as_slice() {
        let reader = reader(alloc, text)?;
        Ok(Event::Death { reader })
    } else {
        Err(LineFault::Bad)
    }
}

/// An event of more than one word.
#[tactic(auto, unfolding(crate::specs::Lines::event_of))]
pub fn event(alloc: Global, word: &[u8], text: &[u8]) -> Result<Event, LineFault>
    ensures { Gives (λ event. event) result (event_of word.now text.now) }
{
    if word == b"open".as_slice() {
        open_event(alloc, text)
    } else if word == b"look".as_slice() {
        let client = name(alloc, text)?;
        Ok(Event::Look { client })
    } else if word == b"part".as_slice() {
        part_event(alloc, text)
    } else if word == b"drop".as_slice() {
        let client = name(alloc, text)?;
        Ok(Event::Drop { client })
    } else {
        reader_event(alloc, word, text)
    }
}

/// An event of one word.
#[tactic(auto, unfolding(crate::specs::Lines::lone_event))]
pub fn lone_event(word: &[u8]) -> Option<Event>
    ensures { result ≡ lone_event_of word.now }
{
    if word == b"merge".as_slice() {
        Some(Event::Merge)
    } else if word == b"close".as_slice() {
        Some(Event::Close)
    } else {
        None
    }
}

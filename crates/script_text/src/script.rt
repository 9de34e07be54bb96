//! A script as it is read.

use block_record::{Bytes, ReaderName};
use block_relay::Limits;

/// What a script sets, and what happens in it.
#[derive(Debug, Drop)]
pub struct Script {
    /// The number of the first block; 0 where it isn't set.
    pub first: u64,
    /// The run; 0 where it isn't set.
    pub run: u64,
    /// The limits; each is its greatest value where it isn't set.
    pub limits: Limits,
    /// The events, in order.
    pub events: Vec<Event>,
}

/// What happens to a plant. The names of readers and clients differ.
#[derive(Debug, Drop)]
pub enum Event {
    /// These bytes come from a reader's node.
    Bytes { reader: ReaderName, bytes: Bytes },
    /// The bytes of a text and an LF come from a reader's node.
    Line { reader: ReaderName, text: Bytes },
    /// The run of a reader's node ends, and a new one begins.
    Death { reader: ReaderName },
    /// A client connects with this request line.
    Open { client: Bytes, request: Bytes },
    /// A look, or the whole rest of an open batch.
    Look { client: Bytes },
    /// The same, but at most so many step lines, at least 1.
    Part { client: Bytes, steps: u64 },
    /// A client's connection ends.
    Drop { client: Bytes },
    /// One merge pass.
    Merge,
    /// The hub is closed.
    Close,
}

/// A setting and its value.
#[derive(Clone, Copy, Debug)]
pub enum Setting {
    First(u64),
    Run(u64),
    Line(u64),
    Request(u64),
    WaitBlocks(u64),
    WaitBytes(u64),
    History(u64),
    Chunk(u32),
    Deaths(u32),
    Hold(u32),
}

/// What a line says.
#[derive(Debug, Drop)]
pub enum Saying {
    /// Nothing: it is empty or a comment.
    Nothing,
    /// A setting.
    Sets(Setting),
    /// An event.
    Tells(Event),
}

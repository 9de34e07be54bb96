//! The line of a cursor, by its text.

ghost use Rattle.std.specs.Prelude.{◌≡◌, ◌++◌, ℕ, List, IfOk, IfErr, OnOk, MatchResult};
ghost use Rattle.std.specs.Option.{option_copied};
ghost use Rattle.cursor_command.specs.CursorCommand.{place_text, tail_text, cursor_line as line_of_cursor, malformed_line as line_of_place, IsTextOf, CursorAnswered, CursorStopped, cursor_stop_line, cursor_stop_status};
ghost use Rattle.command_io.specs.Streams.{sink_at};

use block_record::BlockRef;
use command_io::{Ended, push_named};
use itoa::Buffer;
use outer_world::{Sink, write_whole};
use std::alloc::{AllocError, Global};
use step_cursor::{Cursor, CursorFault, Tail, parse_cursor};
use step_text::word;

/// Why the command has no answer.
#[derive(Clone, Copy, PartialEq, Eq, Debug)]
pub enum CursorStop {
    /// There was no memory.
    Mem,
    /// A write failed.
    Write,
}

impl CursorStop {
    /// The line that says why.
    pub fn line(self) -> &'static [u8]
        ensures { result.now ≡ cursor_stop_line self }
    {
        match self {
            CursorStop::Mem => b"fire: out of memory\n",
            CursorStop::Write => b"fire: write fault\n",
        }
    }

    /// The exit status.
    pub fn status(self) -> u8
        ensures { result ≡ cursor_stop_status self }
    {
        match self {
            CursorStop::Mem => 1,
            CursorStop::Write => 4,
        }
    }
}

/// Appends a block that may be missing.
fn push_place(block: Option<&BlockRef>, line: &mut Vec<u8>) -> Result<(), AllocError>
    ensures { OnOk result
        (line.new.items ≡ line.old.items ++ place_text (option_copied block.entry)) }
{
    match block {
        Some(block) => push_named(block.num, &block.id, line),
        None => line.extend_from_slice(b"0 -"),
    }
}

/// Appends a tail that may be missing.
fn push_tail(tail: Option<Tail>, line: &mut Vec<u8>) -> Result<(), AllocError>
    ensures { OnOk result (line.new.items ≡ line.old.items ++ tail_text tail) }
{
    let Some(Tail { run, seen }) = tail else {
        return line.extend_from_slice(b" run - seen -");
    };
    let mut digits = Buffer::new();
    line.extend_from_slice(b" run ")?;
    line.extend_from_slice(digits.format(run).as_bytes())?;
    line.extend_from_slice(b" seen ")?;
    line.extend_from_slice(digits.format(seen).as_bytes())?;
    Ok(())
}

/// The line of a cursor.
fn cursor_line(alloc: Global, cursor: &Cursor) -> Result<Vec<u8>, AllocError>
    ensures { IfOk result (λ line. line.items ≡ line_of_cursor cursor.now) }
{
    let mut line = Vec::from_slice(alloc, word(cursor.step))?;
    line.push(b' ')?;
    push_named(cursor.block.num, &cursor.block.id, &mut line)?;
    line.extend_from_slice(b" end ")?;
    push_place(cursor.place.end.as_ref(), &mut line)?;
    line.extend_from_slice(b" lib ")?;
    push_place(cursor.place.lib.as_ref(), &mut line)?;
    push_tail(cursor.tail, &mut line)?;
    line.push(b'\n')?;
    Ok(line)
}

/// The line that names the place of a bad part.
fn malformed_line(alloc: Global, at: u8) -> Result<Vec<u8>, AllocError>
    ensures { IfOk result (λ line. line.items ≡ line_of_place at) }
{
    let mut digits = Buffer::new();
    let mut line = Vec::from_slice(alloc, b"fire: malformed ")?;
    line.extend_from_slice(digits.format(at).as_bytes())?;
    line.push(b'\n')?;
    Ok(line)
}

/// Writes the line of a cursor.
fn tell_cursor<O: Sink>(alloc: Global, cursor: &Cursor, output: &mut O) -> Result<Ended, CursorStop>
    ensures { (text : List ℕ) → IsTextOf text cursor.now
        → let before = sink_at O.Sink output.old in let after = sink_at O.Sink output.new in
        MatchResult result
        (λ e. CursorAnswered text before after e.line.items e.status)
        (λ stop. CursorStopped stop text before after) }
{
    let Ok(line) = cursor_line(alloc, cursor) else {
        return Err(CursorStop::Mem);
    };
    match write_whole(output, line.as_slice()) {
        Ok(()) => Ok(Ended {
            line: Vec::new(alloc),
            status: 0,
        }),
        Err(_) => Err(CursorStop::Write),
    }
}

/// The answer to a text with a bad part.
fn refuse(alloc: Global, at: u8) -> Result<Ended, CursorStop>
    ensures line { IfOk result (λ e. e.line.items ≡ line_of_place at) }
    ensures status { IfOk result (λ e. e.status ≡ 16) }
    ensures memory { IfErr result (λ stop. stop ≡ CursorStop.Mem) }
{
    match malformed_line(alloc, at) {
        Ok(line) => Ok(Ended { line, status: 16 }),
        Err(_) => Err(CursorStop::Mem),
    }
}

/// Writes the line of the cursor whose text this is.
pub fn answer_cursor<O: Sink>(
    alloc: Global,
    text: &[u8],
    output: &mut O,
) -> Result<Ended, CursorStop>
    ensures { let before = sink_at O.Sink output.old in let after = sink_at O.Sink output.new in
        MatchResult result
        (λ e. CursorAnswered text.now before after e.line.items e.status)
        (λ stop. CursorStopped stop text.now before after) }
{
    match parse_cursor(alloc, text) {
        Ok(cursor) => tell_cursor(alloc, &cursor, output),
        Err(CursorFault::Malformed { at }) => refuse(alloc, at),
        Err(CursorFault::Mem) => Err(CursorStop::Mem),
    }
}

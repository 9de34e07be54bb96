//! The command over an output and a place for error lines.

ghost use Rattle.command_io.specs.Streams.{SourceState, sink_at, streams_of};
ghost use Rattle.cursor_command.specs.CursorCommand.{CursorRun};

use crate::cursor::answer_cursor;
use command_io::{Ended, Status, tell_error};
use outer_world::Sink;
use std::alloc::Global;

/// Writes the line of the cursor whose text this is, and tells on the place for error lines how it
/// ended. It always returns.
pub fn run_cursor<O: Sink, E: Sink>(
    alloc: Global,
    text: &[u8],
    output: &mut O,
    errors: &mut E,
) -> Status
    ensures { (input : SourceState) → CursorRun text.now
        (streams_of input (sink_at O.Sink output.old) (sink_at E.Sink errors.old))
        (streams_of input (sink_at O.Sink output.new) (sink_at E.Sink errors.new))
        result.code }
{
    if str::from_utf8(text).is_err() {
        tell_error(errors, b"fire: usage\n");
        return Status { code: 2 };
    }
    match answer_cursor(alloc, text, output) {
        Ok(Ended { line, status }) => {
            tell_error(errors, line.as_slice());
            Status { code: status }
        }
        Err(stop) => {
            tell_error(errors, stop.line());
            Status {
                code: stop.status(),
            }
        }
    }
}

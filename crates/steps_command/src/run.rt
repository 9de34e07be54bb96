//! The command over an input, an output and a place for error lines.

ghost use Rattle.command_io.specs.Streams.{streams_at};
ghost use Rattle.steps_command.specs.Runs.{StepsRun};

use crate::steps::follow_input;
use command_io::{Status, tell_error};
use outer_world::{Sink, Source};
use std::alloc::Global;

/// Reads a node's lines from the input, writes the steps of the blocks with numbers of at least `first`,
/// and tells on the place for error lines how it ended. It always returns.
pub fn run_steps<I: Source, O: Sink, E: Sink>(
    alloc: Global,
    first: u64,
    input: &mut I,
    output: &mut O,
    errors: &mut E,
) -> Status
    ensures { let streams = streams_at I.Source O.Sink E.Sink in
        StepsRun first (streams input.old output.old errors.old)
        (streams input.new output.new errors.new) result.code }
{
    match follow_input(alloc, first, input, output) {
        Ok(ended) => {
            tell_error(errors, ended.line.as_slice());
            Status { code: ended.status }
        }
        Err(stop) => {
            tell_error(errors, stop.line());
            Status {
                code: stop.status(),
            }
        }
    }
}

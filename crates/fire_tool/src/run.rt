//! The commands over an input, an output and a place for error lines: what the words name is run, and
//! how it ended is told.

ghost use Rattle.std.specs.Prelude.{◌≡◌, codes, false, map, true};
ghost use Rattle.check_command.specs.Check.{ReportsGood};
ghost use Rattle.fire_tool.specs.Program.{RunsNode, RunsPlain};
ghost use Rattle.fire_tool.specs.Words.{names_check};
ghost use Rattle.node_command.specs.NodeWords.{names_node as names_node_of};
ghost use Rattle.command_io.specs.Streams.{ToldLine, shelf_at, sink_at, streams_at};

use crate::words::{cursor_value, is_check, steps_first};
use check_command::run_check;
use command_io::{Status, tell_error};
use cursor_command::run_cursor;
use node_command::{names_node, run_node};
use outer_world::{Shelf, Sink, Source};
use std::alloc::Global;
use steps_command::run_steps;

/// Runs the command that the words name, over an input, an output, a place for error lines and a
/// shelf, and gives the exit status. It always returns.
pub fn run_plain<I: Source, O: Sink, E: Sink, S: Shelf>(
    alloc: Global,
    words: &[Vec<u8>],
    input: &mut I,
    output: &mut O,
    errors: &mut E,
    shelf: &mut S,
) -> Status
    // What stands in the streams afterwards, by the command that the words name.
    ensures run { let streams = streams_at I.Source O.Sink E.Sink in
        RunsPlain (map (λ w. w.items) words.now)
        (shelf_at S.Shelf shelf.old) (shelf_at S.Shelf shelf.new)
        (streams input.old output.old errors.old)
        (streams input.new output.new errors.new) result.code }

    // `check` reports a good shelf, unless a call failed or there was no memory.
    ensures good { let streams = streams_at I.Source O.Sink E.Sink in
        names_check (map (λ w. w.items) words.now) ≡ true → ReportsGood (S.files shelf.old)
        (streams input.old output.old errors.old)
        (streams input.new output.new errors.new) result.code }

    // No command changes a file of the shelf, and only `check` reads one.
    ensures files { S.files shelf.new ≡ S.files shelf.old }
    ensures staged { S.staged shelf.new ≡ S.staged shelf.old }
    ensures shelf { names_check (map (λ w. w.items) words.now) ≡ false → shelf.new ≡ shelf.old }
{
    if is_check(words) {
        return run_check(alloc, shelf, output, errors);
    }
    run_streams(alloc, words, input, output, errors)
}

/// Runs the command that the words name, which is not `check`, over streams alone.
fn run_streams<I: Source, O: Sink, E: Sink>(
    alloc: Global,
    words: &[Vec<u8>],
    input: &mut I,
    output: &mut O,
    errors: &mut E,
) -> Status
    ensures { let streams = streams_at I.Source O.Sink E.Sink in
        RunsNode (names_node_of (map (λ w. w.items) words.now)) (map (λ w. w.items) words.now)
        (streams input.old output.old errors.old)
        (streams input.new output.new errors.new) result.code }
{
    match names_node(words) {
        Some(options) => run_node(alloc, options, output, errors),
        None => match cursor_value(words) {
            Some(text) => run_cursor(alloc, text, output, errors),
            None => match steps_first(words) {
                Some(first) => run_steps(alloc, first, input, output, errors),
                None => refuse_words(errors),
            },
        },
    }
}

/// Refuses words that name no command.
fn refuse_words<E: Sink>(errors: &mut E) -> Status
    ensures status { result.code ≡ 2 }
    ensures told { ToldLine (sink_at E.Sink errors.old) (sink_at E.Sink errors.new)
        (codes "fire: usage\n") }
{
    tell_error(errors, b"fire: usage\n");
    Status { code: 2 }
}

//! The steps of a node's lines, piece by piece.

ghost use Rattle.std.specs.Prelude.{◌≡◌, ◌++◌, ◌≤◌, [], ℕ, List, Option, IfOk, IfErr, MatchResult};
ghost use Rattle.outer_world.specs.Told.{Grows};
ghost use Rattle.steps_command.specs.ErrorLines.{ending_line, ending_status, IsEndStatus};
ghost use Rattle.steps_command.specs.Pieces.{PieceTaken};
ghost use Rattle.steps_command.specs.Runs.{IsAnswer, Answered, Stopped, stop_line, stop_status};
ghost use Rattle.command_io.specs.Streams.{flow_at, sink_at};
ghost use Rattle.steps_command.specs.Telling.{IsUnderWay, ending_seen};

use crate::error_lines::{line_of_end, status_of_end};
use crate::progress::{Progress, RunEnd};
use command_io::Ended;
use outer_world::{Failed, Sink, Source, TEXT_BYTES_MAX, write_whole};
use std::alloc::Global;

/// Why a run has no answer.
#[derive(Clone, Copy, PartialEq, Eq, Debug)]
pub enum StepsStop {
    /// There was no memory.
    Mem,
    /// A read failed.
    Read,
    /// A write failed.
    Write,
    /// The input did not end.
    TooLong,
}

impl StepsStop {
    /// The line that says why.
    pub fn line(self) -> &'static [u8]
        ensures { result.now ≡ stop_line self }
    {
        match self {
            StepsStop::Mem => b"fire: out of memory\n",
            StepsStop::Read => b"fire: read fault\n",
            StepsStop::Write => b"fire: write fault\n",
            StepsStop::TooLong => b"fire: input too long\n",
        }
    }

    /// The exit status.
    pub fn status(self) -> u8
        ensures { result ≡ stop_status self }
    {
        match self {
            StepsStop::Mem => 1,
            StepsStop::Read => 3,
            StepsStop::Write => 4,
            StepsStop::TooLong => 11,
        }
    }
}

/// Takes a piece of the input, and writes the steps that it brings about. It gives what ended the
/// run, if the piece did.
fn take_piece<O: Sink>(
    alloc: Global,
    piece: &[u8],
    progress: &mut Progress,
    output: &mut O,
) -> Result<Option<RunEnd>, StepsStop>
    ensures taken { (first : ℕ) (input told : List ℕ) (start : Option (List ℕ))
        → IsUnderWay first input told
        progress.old.reader progress.old.follower.world progress.old.follower.place
        → Grows start (O.written output.old) told
        → PieceTaken first (input ++ piece.now) start
        (sink_at O.Sink output.old) (sink_at O.Sink output.new)
        progress.new.reader progress.new.follower.world progress.new.follower.place result }
    ensures faults { O.write_faults output.old ≤ O.write_faults output.new }
{
    let Ok(end) = progress.take_piece(alloc, piece) else {
        return Err(StepsStop::Mem);
    };
    match write_whole(output, progress.text.as_slice()) {
        Ok(()) => Ok(end),
        Err(_) => Err(StepsStop::Write),
    }
}

/// The line and the status of what ended a run.
fn ended_by(alloc: Global, end: &RunEnd) -> Result<Ended, StepsStop>
    ensures line { IfOk result (λ e. e.line.items ≡ ending_line (ending_seen end.now)) }
    ensures status { IfOk result (λ e. e.status ≡ ending_status (ending_seen end.now)) }
    ensures known { IfOk result (λ e. IsEndStatus e.status) }
    ensures memory { IfErr result (λ stop. stop ≡ StepsStop.Mem) }
{
    match line_of_end(alloc, end) {
        Ok(line) => Ok(Ended {
            line,
            status: status_of_end(end),
        }),
        Err(_) => Err(StepsStop::Mem),
    }
}

/// Reads the input piece by piece, and writes the steps of each piece before it reads the next. Blocks
/// with numbers below `first` are passed over.
pub fn follow_input<I: Source, O: Sink>(
    alloc: Global,
    first: u64,
    input: &mut I,
    output: &mut O,
) -> Result<Ended, StepsStop>
    ensures answer { IfOk result (λ e. IsAnswer e.status) }
    ensures done { let before = flow_at I.Source O.Sink input.old output.old in
        let after = flow_at I.Source O.Sink input.new output.new in
        MatchResult result
        (λ e. Answered first before after e.line.items e.status)
        (λ stop. Stopped first stop before after) }
{
    let Ok(mut progress) = Progress::new(alloc, first) else {
        return Err(StepsStop::Mem);
    };
    let mut buf = [0; 65_536];
    let mut taken = 0;
    while taken < TEXT_BYTES_MAX {
        let count = match input.read(&mut buf) {
            Ok(0) => {
                return Ok(Ended {
                    line: Vec::new(alloc),
                    status: 0,
                });
            }
            Ok(count) => count,
            Err(Failed) => return Err(StepsStop::Read),
        };
        taken += count;
        match take_piece(alloc, &buf[..count], &mut progress, output) {
            Ok(None) => {}
            Ok(Some(end)) => return ended_by(alloc, &end),
            Err(stop) => return Err(stop),
        }
    }
    Err(StepsStop::TooLong)
}

//! The run of the command.

ghost use Rattle.std.specs.Prelude.{◌≡◌, ◌≤◌, IfErr, IfOk, MatchResult};
ghost use Rattle.outer_world.specs.Told.{Grows};
ghost use Rattle.shelf_check.specs.declared.check.Report.{Report as Numbers};
ghost use Rattle.shelf_check.specs.Shelf.{IsGoodShelf};
ghost use Rattle.command_io.specs.Streams.{SourceState, shelf_at, sink_at, streams_of};
ghost use Rattle.check_command.specs.Report.{report_text};
ghost use Rattle.check_command.specs.Steps.{EndsAfter, IsRefusal, StopsReport, TellsReport};
ghost use Rattle.check_command.specs.Check.{CheckAnswered, CheckRun, CheckStopped, ReportsGood, stop_line, stop_status};

use crate::lines::{bad_line, clash_line, report_lines};
use command_io::{Ended, Status, tell_error};
use one_block::StoreFault;
use outer_world::{Shelf, Sink, write_whole};
use shelf_check::{LoadFault, Report, check_shelf};
use std::alloc::{AllocError, Global};

/// Why the command has no answer.
#[derive(Clone, Copy, PartialEq, Eq, Debug)]
pub enum CheckStop {
    /// There was no memory.
    Mem,
    /// A write failed.
    Write,
    /// The shelf failed.
    Shelf,
}

impl From<AllocError> for CheckStop {
    ghost use Rattle.std.specs.Prelude.{◌≡◌};
    ghost use Rattle.check_command.specs.declared.run.CheckStop.TheVariants.{Mem};

    ghost from_gives = { λ _ stop. stop ≡ Mem };

    fn from(_error: AllocError) -> CheckStop {
        CheckStop::Mem
    }
}

impl CheckStop {
    /// The line that says why.
    fn line(self) -> &'static [u8]
        ensures { result.now ≡ stop_line self }
    {
        match self {
            CheckStop::Mem => b"fire: out of memory\n",
            CheckStop::Write => b"fire: write fault\n",
            CheckStop::Shelf => b"fire: shelf fault\n",
        }
    }

    /// The exit status.
    fn status(self) -> u8
        ensures { result ≡ stop_status self }
    {
        match self {
            CheckStop::Mem => 1,
            CheckStop::Write => 4,
            CheckStop::Shelf => 7,
        }
    }
}

/// Reads the whole shelf, and writes how many files and blocks it has to the output, or why it is
/// refused to the place for error lines. It changes no file.
pub fn run_check<O: Sink, E: Sink, S: Shelf>(
    alloc: Global,
    shelf: &mut S,
    output: &mut O,
    errors: &mut E,
) -> Status
    ensures run { (input : SourceState) → CheckRun
        (shelf_at S.Shelf shelf.old) (shelf_at S.Shelf shelf.new)
        (streams_of input (sink_at O.Sink output.old) (sink_at E.Sink errors.old))
        (streams_of input (sink_at O.Sink output.new) (sink_at E.Sink errors.new)) result.code }
    ensures good { (input : SourceState) → ReportsGood (S.files shelf.old)
        (streams_of input (sink_at O.Sink output.old) (sink_at E.Sink errors.old))
        (streams_of input (sink_at O.Sink output.new) (sink_at E.Sink errors.new)) result.code }
    ensures files { S.files shelf.new ≡ S.files shelf.old }
    ensures staged { S.staged shelf.new ≡ S.staged shelf.old }
    ensures later { S.shelf_faults shelf.old ≤ S.shelf_faults shelf.new }
{
    match answer(alloc, shelf, output) {
        Ok(Ended { line, status }) => {
            tell_error(errors, line.as_slice());
            Status { code: status }
        }
        Err(stop) => {
            tell_error(errors, stop.line());
            Status {
                code: stop.status(),
            }
        }
    }
}

/// Reads the shelf, and writes the report of a good one.
fn answer<O: Sink, S: Shelf>(
    alloc: Global,
    shelf: &mut S,
    output: &mut O,
) -> Result<Ended, CheckStop>
    ensures answer { let before = sink_at O.Sink output.old in let after = sink_at O.Sink output.new in
        MatchResult result
        (λ e. CheckAnswered (S.files shelf.old) before after e.line.items e.status)
        (λ stop. CheckStopped stop (S.files shelf.old)
        (S.shelf_faults shelf.old) (S.shelf_faults shelf.new) before after) }
    ensures good { (numbers : Numbers) → IsGoodShelf (S.files shelf.old) numbers
        → IfOk result (λ e. (e.status ≡ 0)
        × Grows (O.written output.old) (O.written output.new) (report_text numbers)) }
    ensures files { S.files shelf.new ≡ S.files shelf.old }
    ensures staged { S.staged shelf.new ≡ S.staged shelf.old }
    ensures later { S.shelf_faults shelf.old ≤ S.shelf_faults shelf.new }
{
    match check_shelf(alloc, shelf) {
        Ok(report) => tell_report(alloc, &report, output),
        Err(fault) => refuse(alloc, fault),
    }
}

/// Writes the report of a shelf.
fn tell_report<O: Sink>(alloc: Global, report: &Report, output: &mut O) -> Result<Ended, CheckStop>
    ensures told { IfOk result (λ e. TellsReport report.now
        (sink_at O.Sink output.old) (sink_at O.Sink output.new) e) }
    ensures refused { IfErr result (λ stop. StopsReport stop report.now
        (sink_at O.Sink output.old) (sink_at O.Sink output.new)) }
{
    let text = report_lines(alloc, report)?;
    match write_whole(output, text.as_slice()) {
        Ok(()) => Ok(Ended {
            line: Vec::new(alloc),
            status: 0,
        }),
        Err(_) => Err(CheckStop::Write),
    }
}

/// The answer to a shelf that was refused for this.
fn refuse(alloc: Global, fault: LoadFault) -> Result<Ended, CheckStop>
    requires known { IsRefusal fault }
    ensures { EndsAfter fault result }
{
    match fault {
        LoadFault::Store(StoreFault::ShelfFault) => Err(CheckStop::Shelf),
        LoadFault::Store(StoreFault::ShelfBad { name, at }) => {
            let line = bad_line(alloc, &name, at)?;
            Ok(Ended { line, status: 8 })
        }
        LoadFault::KindClash { held, offered } => {
            let line = clash_line(alloc, &held, &offered)?;
            Ok(Ended { line, status: 14 })
        }
        LoadFault::Store(
            StoreFault::Missing { .. }
            | StoreFault::StoredOther { .. }
            | StoreFault::NameClash { .. },
        )
        | LoadFault::HistoryFull { .. } => unreachable!(),
        LoadFault::Store(StoreFault::Mem) => Err(CheckStop::Mem),
    }
}

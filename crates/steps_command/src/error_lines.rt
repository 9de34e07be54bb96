//! The lines that name what ended a run.

ghost use Rattle.std.specs.Prelude.{◌≡◌, ◌∷◌, ◌++◌, [], IfOk, OnOk};
ghost use Rattle.std.specs.Fmt.{decimal};
ghost use Rattle.steps_command.specs.ErrorLines.{kind_word, refusal_line, fault_words, fault_place, fault_field, fault_line, ending_line, ending_status, IsEndStatus};
ghost use Rattle.steps_command.specs.Telling.{ending_seen};

use crate::progress::RunEnd;
use command_io::push_named;
use fire_lines::LineFault;
use itoa::Buffer;
use relay_model::{Conflict, ConflictKind};
use std::alloc::{AllocError, Global};
use step_text::Refusal;

/// The word of a kind of conflict.
fn word_of_kind(kind: ConflictKind) -> &'static [u8]
    ensures { result.now ≡ kind_word kind }
{
    match kind {
        ConflictKind::Id => b"id",
        ConflictKind::Parent => b"parent",
        ConflictKind::Finality => b"finality",
    }
}

/// The line of a conflict.
fn conflict_line(alloc: Global, conflict: &Conflict) -> Result<Vec<u8>, AllocError>
    ensures { IfOk result (λ line. line.items ≡ refusal_line (Refusal.Contradicts conflict.now)) }
{
    let mut line = Vec::from_slice(alloc, b"fire: conflict ")?;
    line.extend_from_slice(word_of_kind(conflict.kind))?;
    line.extend_from_slice(b" held ")?;
    push_named(conflict.held.num, &conflict.held.id, &mut line)?;
    line.extend_from_slice(b" offered ")?;
    push_named(conflict.offered.num, &conflict.offered.id, &mut line)?;
    line.push(b'\n')?;
    Ok(line)
}

/// Appends two numbers and the end of the line.
fn push_two(first: u64, second: u64, line: &mut Vec<u8>) -> Result<(), AllocError>
    ensures { OnOk result
        (line.new.items ≡ line.old.items ++ decimal first ++ 32 ∷ decimal second ++ 10 ∷ []) }
{
    let mut digits = Buffer::new();
    line.extend_from_slice(digits.format(first).as_bytes())?;
    line.push(b' ')?;
    line.extend_from_slice(digits.format(second).as_bytes())?;
    line.push(b'\n')?;
    Ok(())
}

/// The line of a full history.
fn history_full_line(alloc: Global, len: u64, need: u64) -> Result<Vec<u8>, AllocError>
    ensures { IfOk result (λ line. line.items ≡ refusal_line (Refusal.HistoryFull len need)) }
{
    let mut line = Vec::from_slice(alloc, b"fire: history full ")?;
    push_two(len, need, &mut line)?;
    Ok(line)
}

/// The line of a block for which there was no room to wait.
fn wait_full_line(alloc: Global, blocks: u64, bytes: u64) -> Result<Vec<u8>, AllocError>
    ensures { IfOk result (λ line. line.items ≡ refusal_line (Refusal.WaitFull blocks bytes)) }
{
    let mut line = Vec::from_slice(alloc, b"fire: wait full ")?;
    push_two(blocks, bytes, &mut line)?;
    Ok(line)
}

/// The line of a refusal.
fn line_of_refusal(alloc: Global, refusal: &Refusal) -> Result<Vec<u8>, AllocError>
    ensures { IfOk result (λ line. line.items ≡ refusal_line refusal.now) }
{
    match refusal {
        Refusal::Contradicts(conflict) => conflict_line(alloc, conflict),
        Refusal::HistoryFull { len, need } => history_full_line(alloc, *len, *need),
        Refusal::WaitFull { blocks, bytes } => wait_full_line(alloc, *blocks, *bytes),
    }
}

/// What is wrong with a line, without its place.
fn words_of_fault(fault: LineFault) -> &'static [u8]
    ensures { result.now ≡ fault_words fault }
{
    match fault {
        LineFault::TooLong { .. } => b"too long",
        LineFault::BadInit { .. } => b"bad init",
        LineFault::InitChanged { .. } => b"init changed",
        LineFault::NoInit { .. } => b"no init",
        LineFault::BadField { .. } => b"bad field ",
        LineFault::Mem => b"no memory",
    }
}

/// The number of the bad line, from 1.
fn number_of_line(fault: LineFault) -> u64
    ensures { result ≡ fault_place fault }
{
    match fault {
        LineFault::TooLong { line }
        | LineFault::BadInit { line }
        | LineFault::InitChanged { line }
        | LineFault::NoInit { line }
        | LineFault::BadField { line, .. } => line,
        LineFault::Mem => 0,
    }
}

/// The line of a bad line.
fn line_of_fault(alloc: Global, fault: LineFault) -> Result<Vec<u8>, AllocError>
    ensures { IfOk result (λ line. line.items ≡ fault_line fault) }
{
    let mut digits = Buffer::new();
    let mut line = Vec::from_slice(alloc, b"fire: line ")?;
    line.extend_from_slice(digits.format(number_of_line(fault)).as_bytes())?;
    line.extend_from_slice(b": ")?;
    line.extend_from_slice(words_of_fault(fault))?;
    push_field(fault, &mut line)?;
    line.push(b'\n')?;
    Ok(line)
}

/// Appends the number of a bad field.
fn push_field(fault: LineFault, line: &mut Vec<u8>) -> Result<(), AllocError>
    ensures { OnOk result (line.new.items ≡ line.old.items ++ fault_field fault) }
{
    if let LineFault::BadField { field, .. } = fault {
        let mut digits = Buffer::new();
        line.extend_from_slice(digits.format(field).as_bytes())?;
    }
    Ok(())
}

/// The line of what ended a run.
pub fn line_of_end(alloc: Global, end: &RunEnd) -> Result<Vec<u8>, AllocError>
    ensures { IfOk result (λ line. line.items ≡ ending_line (ending_seen end.now)) }
{
    match end {
        RunEnd::BadLine(fault) => {
            let line = line_of_fault(alloc, *fault)?;
            Ok(line)
        }
        RunEnd::Refused(refusal) => {
            let line = line_of_refusal(alloc, refusal)?;
            Ok(line)
        }
    }
}

/// The status of what ended a run.
pub fn status_of_end(end: &RunEnd) -> u8
    ensures value { result ≡ ending_status (ending_seen end.now) }
    ensures known { IsEndStatus result }
{
    match end {
        RunEnd::BadLine(_) => 5,
        RunEnd::Refused(Refusal::HistoryFull { .. } | Refusal::WaitFull { .. }) => 12,
        RunEnd::Refused(Refusal::Contradicts(_)) => 6,
    }
}

//! The lines of the command.

ghost use Rattle.std.specs.Prelude.{◌≡◌, ◌++◌, IfOk, OnOk};
ghost use Rattle.check_command.specs.Report.{count_line, report_text, bad_line as line_of_bad, clash_line as line_of_clash};

use block_record::TypeName;
use itoa::Buffer;
use outer_world::FileName;
use shelf_check::Report;
use std::alloc::{AllocError, Global};

/// Appends the line of a word and a number.
fn push_count(word: &[u8], count: u64, text: &mut Vec<u8>) -> Result<(), AllocError>
    ensures { OnOk result (text.new.items ≡ text.old.items ++ count_line word.now count) }
{
    let mut digits = Buffer::new();
    text.extend_from_slice(word)?;
    text.push(b' ')?;
    text.extend_from_slice(digits.format(count).as_bytes())?;
    text.push(b'\n')?;
    Ok(())
}

/// The four lines of a report.
pub fn report_lines(alloc: Global, report: &Report) -> Result<Vec<u8>, AllocError>
    ensures { IfOk result (λ text. text.items ≡ report_text report.now) }
{
    let mut text = Vec::new(alloc);
    push_count(b"bundles", report.bundles, &mut text)?;
    push_count(b"blocks", report.blocks, &mut text)?;
    push_count(b"one", report.one, &mut text)?;
    push_count(b"forked", report.forked, &mut text)?;
    Ok(text)
}

/// The line of a file that is bad at this place.
pub fn bad_line(alloc: Global, name: &FileName, at: u64) -> Result<Vec<u8>, AllocError>
    ensures { IfOk result (λ line. line.items ≡ line_of_bad name.now at) }
{
    let mut digits = Buffer::new();
    let mut line = Vec::from_slice(alloc, b"fire: shelf bad ")?;
    line.extend_from_slice(name.as_bytes())?;
    line.push(b' ')?;
    line.extend_from_slice(digits.format(at).as_bytes())?;
    line.push(b'\n')?;
    Ok(line)
}

/// The line of a file of another type than those before it.
pub fn clash_line(alloc: Global, held: &TypeName, offered: &TypeName) -> Result<Vec<u8>, AllocError>
    ensures { IfOk result (λ line. line.items ≡ line_of_clash held.now offered.now) }
{
    let mut line = Vec::from_slice(alloc, b"fire: kind clash ")?;
    line.extend_from_slice(held.as_bytes())?;
    line.push(b' ')?;
    line.extend_from_slice(offered.as_bytes())?;
    line.push(b'\n')?;
    Ok(line)
}

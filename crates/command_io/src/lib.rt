//! What the commands of the program share: their streams as contracts see them, how they end, the
//! error line that tells it, and how a line names a block.
#![tactic(auto)]

ghost use Rattle.std.specs.Prelude.{◌≡◌, ◌++◌, OnOk};
ghost use Rattle.command_io.specs.Lines.{named};
ghost use Rattle.command_io.specs.Streams.{ToldLine, sink_at};

use block_record::Id;
use itoa::Buffer;
use outer_world::{Sink, write_whole};
use std::alloc::AllocError;

/// How a run ended, as the exit status of the program.
#[derive(Clone, Copy, Debug, PartialEq, Eq)]
pub struct Status {
    pub code: u8,
}

/// How a run ended that has an answer.
#[derive(Drop)]
pub struct Ended {
    /// The error line that names what ended it, and no byte where nothing did.
    pub line: Vec<u8>,
    pub status: u8,
}

/// Writes an error line, which may be empty. A failure changes nothing else.
pub fn tell_error<E: Sink>(errors: &mut E, line: &[u8])
    ensures { ToldLine (sink_at E.Sink errors.old) (sink_at E.Sink errors.new) line.now }
{
    let _ = write_whole(errors, line);
}

/// Appends a number and an id, as lines name a block.
pub fn push_named(num: u64, id: &Id, line: &mut Vec<u8>) -> Result<(), AllocError>
    ensures { OnOk result (line.new.items ≡ line.old.items ++ named num id.now) }
{
    let mut digits = Buffer::new();
    line.extend_from_slice(digits.format(num).as_bytes())?;
    line.push(b' ')?;
    line.extend_from_slice(id.as_bytes())?;
    Ok(())
}

//! An input that is taken whole before any of it is used.
#![tactic(auto)]

ghost use Rattle.std.specs.Prelude.{IfOk, IfErr};
ghost use Rattle.command_io.specs.Streams.{source_at};
ghost use Rattle.input_text.specs.Inputs.{IsStopped, TookAll};

use outer_world::{Failed, Source, TEXT_BYTES_MAX};
use std::alloc::Global;

/// Why an input was not read to its end.
#[derive(Clone, Copy, PartialEq, Eq, Debug)]
pub enum InputStop {
    /// There was no memory.
    Mem,
    /// A read failed.
    Read,
    /// It did not end.
    TooLong,
}

/// Reads an input to its end, piece by piece.
pub fn read_input<I: Source>(alloc: Global, input: &mut I) -> Result<Vec<u8>, InputStop>
    ensures whole { IfOk result (λ text.
        TookAll (source_at I.Source input.old) (source_at I.Source input.new) text.items) }
    ensures stopped { IfErr result
        (IsStopped (source_at I.Source input.old) (source_at I.Source input.new)) }
{
    let mut text = Vec::new(alloc);
    let mut buf = [0; 65_536];
    let mut taken = 0;
    while taken < TEXT_BYTES_MAX {
        match input.read(&mut buf) {
            Ok(0) => return Ok(text),
            Ok(count) => {
                if text.extend_from_slice(&buf[..count]).is_err() {
                    return Err(InputStop::Mem);
                }
                taken += count;
            }
            Err(Failed) => return Err(InputStop::Read),
        }
    }
    Err(InputStop::TooLong)
}

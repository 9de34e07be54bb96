//! The command over an output and a place for error lines.

ghost use Rattle.std.specs.Prelude.{◌≡◌, ◌≤◌, OnOk, OnErr, IfErr};
ghost use Rattle.command_io.specs.Streams.{SourceState, sink_at, streams_of};
ghost use Rattle.outer_world.specs.Causes.{HasCause};
ghost use Rattle.outer_world.specs.Told.{GrowsByFront};
ghost use Rattle.node_command.specs.Growth.{GrewBut};
ghost use Rattle.node_command.specs.NodeRuns.{NodeRun, Stopped, Wrote, stop_line, stop_status};

use crate::options::NodeOptions;
use command_io::{Status, tell_error};
use node_gen::{Generator, push_opening};
use outer_world::{Failed, Sink, write_whole};
use std::alloc::{AllocError, Global};

/// How many bytes are kept before they are written.
const WRITE_BYTES: usize = 65_536;

/// Why not all lines were written.
#[derive(Clone, Copy, PartialEq, Eq, Debug)]
pub enum NodeStop {
    /// There was no memory.
    Mem,
    /// A write failed.
    Write,
}

impl From<AllocError> for NodeStop {
    ghost use Rattle.std.specs.Prelude.{◌≡◌};
    ghost use Rattle.node_command.specs.declared.run.NodeStop.TheVariants.{Mem};

    ghost from_gives = { λ _ stop. stop ≡ Mem };

    fn from(_error: AllocError) -> NodeStop {
        NodeStop::Mem
    }
}

impl From<Failed> for NodeStop {
    ghost use Rattle.std.specs.Prelude.{◌≡◌};
    ghost use Rattle.node_command.specs.declared.run.NodeStop.TheVariants.{Write};

    ghost from_gives = { λ _ stop. stop ≡ Write };

    fn from(_error: Failed) -> NodeStop {
        NodeStop::Write
    }
}

impl NodeStop {
    /// The line that says why.
    pub fn line(self) -> &'static [u8]
        ensures { result.now ≡ stop_line self }
    {
        match self {
            NodeStop::Mem => b"fire: out of memory\n",
            NodeStop::Write => b"fire: write fault\n",
        }
    }

    /// The exit status.
    pub fn status(self) -> u8
        ensures { result ≡ stop_status self }
    {
        match self {
            NodeStop::Mem => 1,
            NodeStop::Write => 4,
        }
    }
}

/// Writes the lines of a generated node, and tells on the place for error lines why they are not all
/// written. It always returns.
pub fn run_node<O: Sink, E: Sink>(
    alloc: Global,
    options: NodeOptions,
    output: &mut O,
    errors: &mut E,
) -> Status
    requires { options.blocks ≤ 1_000_000 }
    ensures { (input : SourceState) → NodeRun options
        (streams_of input (sink_at O.Sink output.old) (sink_at E.Sink errors.old))
        (streams_of input (sink_at O.Sink output.new) (sink_at E.Sink errors.new))
        result.code }
{
    match write_lines(alloc, options, output) {
        Ok(()) => Status { code: 0 },
        Err(stop) => {
            tell_error(errors, stop.line());
            Status {
                code: stop.status(),
            }
        }
    }
}

/// Writes the lines in pieces.
fn write_lines<O: Sink>(alloc: Global, options: NodeOptions, output: &mut O) -> Result<(), NodeStop>
    requires { options.blocks ≤ 1_000_000 }
    ensures all { OnOk result
        (Wrote options (sink_at O.Sink output.old) (sink_at O.Sink output.new)) }
    ensures stopped { IfErr result (λ stop. Stopped stop options
        (sink_at O.Sink output.old) (sink_at O.Sink output.new)) }
{
    let mut text = Vec::new(alloc);
    push_opening(&mut text)?;
    let mut generator = Generator::new(options.key, options.forks);
    while generator.num < options.blocks {
        write_full(output, &mut text)?;
        generator.push_next(&mut text)?;
    }
    write_whole(output, text.as_slice())?;
    Ok(())
}

/// Writes a buffer where it is full, and empties it then.
fn write_full<O: Sink>(output: &mut O, text: &mut Vec<u8>) -> Result<(), Failed>
    ensures grew { OnOk result (GrewBut (O.written output.old) (O.written output.new)
        text.old.items text.new.items) }
    ensures front { OnErr result
        (GrowsByFront (O.written output.old) (O.written output.new) text.old.items) }
    ensures cause { HasCause (O.write_faults output.old) (O.write_faults output.new) result }
{
    if text.len() < WRITE_BYTES {
        return Ok(());
    }
    write_whole(output, text.as_slice())?;
    text.clear();
    Ok(())
}

//! The lines of what came of a client's event. Without memory the text stays as it is.

ghost use Rattle.std.specs.Prelude.{◌≡◌, ◌++◌, Err, IfErr, IsOk, OnErr, OnOk};
ghost use Rattle.replay_text.specs.Lines.{over_line};
ghost use Rattle.script_clients.specs.Looking.{IsTold, look_lines, turn_lines};

use one_block::StoreFault;
use relay_session::Turn;
use replay_text::{push_not_yet, push_over, push_replies};
use std::alloc::AllocError;

/// Appends the lines of an event by what came of it, where this was sent to the client.
fn push_turn(name: &[u8], turn: Turn, sent: &[u8], out: &mut Vec<u8>) -> Result<(), AllocError>
    ensures ok { OnOk result
        (out.new.items ≡ out.old.items ++ turn_lines name.now sent.now turn) }
    ensures err { OnErr result (out.new.items ≡ out.old.items) }
{
    match turn {
        Turn::NotYet { len } => push_not_yet(name, len, out),
        Turn::Sent => push_replies(name, sent, out),
        Turn::WasOver => push_over(name, out),
    }
}

/// Appends the lines of an event and hands on its refusal, before which this was sent to the client.
pub fn push_look(
    name: &[u8],
    looked: Result<Turn, StoreFault>,
    sent: &[u8],
    out: &mut Vec<u8>,
) -> Result<(), StoreFault>
    ensures ok { OnOk result (IsOk looked) }
    ensures told { OnOk result
        (out.new.items ≡ out.old.items ++ look_lines name.now sent.now looked) }
    ensures err { IfErr result (λ fault. IsTold name.now sent.now looked fault
        out.old.items out.new.items) }
{
    match looked {
        Ok(turn) => {
            push_turn(name, turn, sent, out)?;
            Ok(())
        }
        Err(fault) => {
            push_replies(name, sent, out)?;
            Err(fault)
        }
    }
}

/// Appends the line of a client that is over.
pub fn push_gone(name: &[u8], out: &mut Vec<u8>) -> Result<(), StoreFault>
    ensures ok { OnOk result (out.new.items ≡ out.old.items ++ over_line name.now) }
    ensures err { OnErr result (out.new.items ≡ out.old.items) }
    ensures mem { IfErr result (λ fault. fault ≡ StoreFault.Mem) }
{
    push_over(name, out)?;
    Ok(())
}

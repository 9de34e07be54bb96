//! One look of a session.

ghost use Rattle.std.specs.Prelude.{◌≡◌, ◌≢◌, OnOk, OnErr, IfOk, Err};
ghost use Rattle.block_relay.specs.Chronicle.{world_told};
ghost use Rattle.client_stream.specs.Answers.{said_of};
ghost use Rattle.relay_look.specs.declared.answers.LookFault.TheVariants.{Mem};
ghost use Rattle.relay_session.specs.Asking.{IsIdle, IsLookFor, IsLookTaken, turn_said};
ghost use Rattle.relay_session.specs.Serving.{GoesOn, IsServed};

use crate::know::know_sound;
use crate::turn::Turn;
use block_relay::Relay;
use client_stream::{Need, Session};
use relay_look::{Look, LookFault};
use std::alloc::AllocError;

/// One look where the session waits for it. At an error nothing has changed.
pub fn ask(relay: &Relay, session: &mut Session, out: &mut Vec<u8>) -> Result<Turn, AllocError>
    requires { IsServed relay.now session.old }
    ensures told { GoesOn relay.now session.old session.new out.old.items out.new.items }
    ensures taken { IfOk result
        (IsLookTaken (world_told relay.now) session.old.progress session.new.progress) }
    ensures idle { IfOk result (λ turn. IsIdle turn → session.new ≡ session.old) }
    ensures silent { IfOk result (λ turn. IsIdle turn → out.new.items ≡ out.old.items) }
    ensures same { OnErr result (session.new ≡ session.old) }
{
    know_sound(relay);
    match session.need() {
        Need::Look(position) => {
            let look = relay.look(session.request(), position);
            give(relay, session, look, out)
        }
        Need::Chunk { .. } => Ok(Turn::Sent),
        Need::Over(_) => Ok(Turn::WasOver),
    }
}

/// Gives a session the answer to its look. At an error nothing has changed.
fn give(
    relay: &Relay,
    session: &mut Session,
    look: Result<Look, LookFault>,
    out: &mut Vec<u8>,
) -> Result<Turn, AllocError>
    requires served { IsServed relay.now session.old }
    requires look { IsLookFor (world_told relay.now) session.old.progress look }
    ensures told { GoesOn relay.now session.old session.new out.old.items out.new.items }
    ensures taken { IfOk result
        (IsLookTaken (world_told relay.now) session.old.progress session.new.progress) }
    ensures idle { IfOk result (λ turn. IsIdle turn → session.new ≡ session.old) }
    ensures silent { IfOk result (λ turn. IsIdle turn → out.new.items ≡ out.old.items) }
    ensures same { OnErr result (session.new ≡ session.old) }
{
    know_sound(relay);
    let turn = turn_of(&look)?;
    session.give_look(look, relay.kind(), out)?;
    Ok(turn)
}

/// What an answer to a look brings about.
fn turn_of(look: &Result<Look, LookFault>) -> Result<Turn, AllocError>
    ensures turn { IfOk result (λ turn. turn ≡ turn_said (said_of look.now)) }
    ensures some { OnOk result (look.now ≢ Err Mem) }
{
    match look {
        Ok(Look::NotYet { len }) => Ok(Turn::NotYet { len: *len }),
        Err(LookFault::Mem) => Err(AllocError),
        _ => Ok(Turn::Sent),
    }
}

//! What is known of a relay, as facts for contracts. Nothing here runs.

ghost use Rattle.block_relay.specs.Chronicle.{world_told};
ghost use Rattle.client_stream.specs.Sent.{SentStays};
ghost use Rattle.relay_model.specs.Soundness.{IsSound};

use block_relay::Relay;
use client_stream::sent_stays;

/// The world of a relay is sound, and what a session has sent stays so as the history grows.
pub fn know_sound(relay: &Relay)
    ensures sound { IsSound (world_told relay.now) }
    ensures stays { SentStays }
{
    let _len = relay.len();
    sent_stays();
}

//! What is known of a relay, as a fact for contracts. Nothing here runs.

ghost use Rattle.block_relay.specs.Chronicle.{world_told};
ghost use Rattle.relay_model.specs.Soundness.{IsSound};

use block_relay::Relay;

/// The world of a relay is sound.
pub fn know_sound(relay: &Relay)
    ensures { IsSound (world_told relay.now) }
{
    let _len = relay.len();
}

//! A script, run over a shelf.

ghost use Rattle.std.specs.Prelude.{◌≡◌, ◌≤◌, ◌⊎◌, ◌++◌, IfErr, IfOk};
ghost use Rattle.block_relay.specs.Chronicle.{world_told};
ghost use Rattle.replay_text.specs.Lines.{loaded_line};
ghost use Rattle.script_text.specs.Scripts.{script_seen};
ghost use Rattle.plant_core.specs.Moments.{AllOwn, IsSteady, moment, plant_of};
ghost use Rattle.plant_core.specs.Runs.{DidNotBegin, IsGivenUp, IsReplayed, IsStopped, IsTold, RunsTo, StopsWithin, told_new};

use crate::plant::Plant;
use block_relay::Relay;
use one_block::StoreFault;
use outer_world::Shelf;
use replay_text::{push_load_fault, push_loaded};
use script_text::{Event, Script};
use shelf_check::LoadFault;
use shelf_load::{Loaded, load};
use std::alloc::{AllocError, Global};

/// Loads the shelf into a relay, and then has each event of the script happen to it, in order: the relay
/// as it is then. What was written is appended, at an error too. Where the shelf has two kinds, or more
/// blocks than a history may, that is told, no event happens, and the relay is empty.
pub fn replay<S: Shelf>(
    alloc: Global,
    script: &Script,
    shelf: &mut S,
    out: &mut Vec<u8>,
) -> Result<Relay, StoreFault>
    ensures ok { IfOk result (IsReplayed (script_seen script.now)
        (S.files shelf.old) (S.files shelf.new) (S.shelf_faults shelf.old) (S.shelf_faults shelf.new)
        out.old.items out.new.items) }
    ensures err { IfErr result (IsStopped (script_seen script.now)
        (S.files shelf.old) (S.files shelf.new) (S.shelf_faults shelf.old) (S.shelf_faults shelf.new)
        out.old.items out.new.items) }
    ensures later { S.shelf_faults shelf.old ≤ S.shelf_faults shelf.new }
{
    let mut relay = new_relay(alloc, script)?;
    match load(alloc, &mut relay, shelf) {
        Ok(loaded) => run_loaded(alloc, script, loaded, relay, shelf, out),
        Err(refused) => tell_unloaded(alloc, script, refused, out),
    }
}

/// Tells what a shelf gave a new relay, and then has each event of the script happen.
fn run_loaded<S: Shelf>(
    alloc: Global,
    script: &Script,
    loaded: Loaded,
    relay: Relay,
    shelf: &mut S,
    out: &mut Vec<u8>,
) -> Result<Relay, StoreFault>
    requires { (world_told relay).run ≡ script.now.run }
    ensures ok { IfOk result (RunsTo script.now.events.items
        (moment (plant_of relay script.now.run script.now.limits) (S.files shelf.old)
        (S.shelf_faults shelf.old) (out.old.items ++ loaded_line loaded))
        (S.files shelf.new) (S.shelf_faults shelf.new) out.new.items) }
    ensures err { IfErr result (λ fault. DidNotBegin (S.files shelf.old) (S.files shelf.new)
        out.old.items out.new.items fault ⊎ StopsWithin script.now.events.items
        (moment (plant_of relay script.now.run script.now.limits) (S.files shelf.old)
        (S.shelf_faults shelf.old) (out.old.items ++ loaded_line loaded))
        (S.files shelf.new) (S.shelf_faults shelf.new) out.new.items fault) }
    ensures later { S.shelf_faults shelf.old ≤ S.shelf_faults shelf.new }
{
    push_loaded(loaded, out)?;
    let plant = Plant::new(alloc, relay, script.run, script.limits);
    run_events(alloc, script.events.as_slice(), plant, shelf, out)
}

/// Tells why a shelf was not loaded, unless the shelf itself was refused: a new relay.
fn tell_unloaded(
    alloc: Global,
    script: &Script,
    refused: LoadFault,
    out: &mut Vec<u8>,
) -> Result<Relay, StoreFault>
    ensures ok { IfOk result (IsTold (script_seen script.now) refused
        out.old.items out.new.items) }
    ensures err { IfErr result (IsGivenUp refused out.old.items out.new.items) }
{
    match refused {
        LoadFault::Store(fault) => Err(fault),
        refused => {
            push_load_fault(&refused, out)?;
            let relay = new_relay(alloc, script)?;
            Ok(relay)
        }
    }
}

/// A new relay of a script.
fn new_relay(alloc: Global, script: &Script) -> Result<Relay, AllocError>
    ensures { IfOk result (λ relay. relay ≡ told_new (script_seen script.now)) }
{
    let relay = Relay::new(alloc, script.first, script.run, script.limits)?;
    Ok(relay)
}

/// Has events happen to a plant, in order: its relay as it is then.
fn run_events<S: Shelf>(
    alloc: Global,
    events: &[Event],
    mut plant: Plant,
    shelf: &mut S,
    out: &mut Vec<u8>,
) -> Result<Relay, StoreFault>
    requires steady { IsSteady plant }
    requires own { AllOwn (S.files shelf.old) plant.readers }
    ensures ok { IfOk result (RunsTo events.now
        (moment plant (S.files shelf.old) (S.shelf_faults shelf.old) out.old.items)
        (S.files shelf.new) (S.shelf_faults shelf.new) out.new.items) }
    ensures err { IfErr result (StopsWithin events.now
        (moment plant (S.files shelf.old) (S.shelf_faults shelf.old) out.old.items)
        (S.files shelf.new) (S.shelf_faults shelf.new) out.new.items) }
    ensures later { S.shelf_faults shelf.old ≤ S.shelf_faults shelf.new }
{
    for event in events {
        plant.run_event(alloc, event, shelf, out)?;
    }
    Ok(plant.into_relay())
}

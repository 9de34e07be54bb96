//! The shelf in the current folder, loaded into a relay.

ghost use Rattle.std.specs.Prelude.{IfOk};
ghost use Rattle.block_relay.specs.Chronicle.{world_told};
ghost use Rattle.store_model.specs.Laws.{IsEmpty};

use crate::blocks::Fault;
use block_reader::OwnFiles;
use block_relay::{Limits, Relay};
use folder_shelf::FolderShelf;
use shelf_load::{Loaded, load};
use std::alloc::{AllocError, Global};

/// The folder of the shelf, in the current folder.
const SHELF: &str = "shelf";

const LIMITS: Limits = Limits {
    line: 67_108_864,
    request: 65_536,
    wait_blocks: 1_024,
    wait_bytes: 536_870_912,
    history: 4_194_304,
    chunk: 256,
    deaths: 5,
    hold: 1_000_000,
};

/// The shelf, and the relay that was loaded from it.
#[derive(Drop)]
pub struct Plant {
    pub relay: Relay,
    pub shelf: FolderShelf<HostRuntime>,
    pub own: OwnFiles,
    pub loaded: Loaded,
}

/// The shelf.
fn open_shelf(rt: &HostRuntime) -> Result<FolderShelf<HostRuntime>, AllocError> {
    let rt = rt.clone()?;
    let shelf = FolderShelf::new(rt, SHELF, 0)?;
    Ok(shelf)
}

/// A relay of the usual limits that takes any first block.
fn new_relay(alloc: Global) -> Result<Relay, AllocError>
    ensures { IfOk result (λ relay. IsEmpty (world_told relay)) }
{
    let relay = Relay::new(alloc, 0, 0, LIMITS)?;
    Ok(relay)
}

/// A relay with what the shelf has.
pub fn new_plant(rt: &HostRuntime) -> Result<Plant, Fault> {
    let mut shelf = open_shelf(rt)?;
    let mut relay = new_relay(rt.alloc())?;
    match load(rt.alloc(), &mut relay, &mut shelf) {
        Ok(loaded) => Ok(Plant {
            relay,
            shelf,
            own: OwnFiles::new(rt.alloc()),
            loaded,
        }),
        Err(_) => Err(Fault::Refused),
    }
}

/// Loads the shelf, and prints what the relay is then.
pub fn load_shelf(rt: &HostRuntime) -> Result<(), Fault> {
    let plant = new_plant(rt)?;
    print_loaded(rt, plant.loaded, plant.relay.stored_finals())
}

/// Prints what the shelf gave, and how many final blocks are stored.
fn print_loaded(rt: &HostRuntime, loaded: Loaded, stored: u64) -> Result<(), Fault> {
    let Loaded {
        admitted,
        waiting,
        passed,
        conflicts,
    } = loaded;
    let printed = rt.println(format_args!(
        "admitted {admitted} waiting {waiting} passed {passed} conflicts {conflicts} stored {stored}"
    ));
    match printed {
        Ok(()) => Ok(()),
        Err(_) => Err(Fault::Refused),
    }
}

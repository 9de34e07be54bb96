//! Relays that shelves are loaded into.

ghost use Rattle.std.specs.Prelude.{IfOk};
ghost use Rattle.block_relay.specs.Chronicle.{world_told};
ghost use Rattle.store_model.specs.Laws.{IsEmpty};

use block_relay::{Limits, Relay};
use memory_world::{FailingShelf, MemoryShelf};
use shelf_check::LoadFault;
use shelf_load::{Loaded, load};
use std::alloc::{AllocError, Global};

/// An empty relay for blocks with numbers of at least `first`, with room for so many, of which two may
/// wait.
pub fn fresh(alloc: Global, first: u64, history: u64) -> Result<Relay, AllocError>
    ensures { IfOk result (λ relay. IsEmpty (world_told relay)) }
{
    let limits = Limits {
        line: 1_000,
        request: 1_000,
        wait_blocks: 2,
        wait_bytes: 100,
        history,
        chunk: 16,
        deaths: 5,
        hold: 100,
    };
    let relay = Relay::new(alloc, first, 0, limits)?;
    Ok(relay)
}

/// A relay that a shelf was loaded into, and the answer.
#[derive(Drop)]
pub struct Filled {
    pub relay: Relay,
    pub answer: Result<Loaded, LoadFault>,
}

/// Loads a shelf into an empty relay.
pub fn fill(
    alloc: Global,
    first: u64,
    history: u64,
    shelf: &mut MemoryShelf,
) -> Result<Filled, AllocError> {
    let mut relay = fresh(alloc, first, history)?;
    let answer = load(alloc, &mut relay, shelf);
    Ok(Filled { relay, answer })
}

/// The same of a shelf of which calls fail.
pub fn fill_failing(
    alloc: Global,
    history: u64,
    shelf: &mut FailingShelf<MemoryShelf>,
) -> Result<Filled, AllocError> {
    let mut relay = fresh(alloc, 0, history)?;
    let answer = load(alloc, &mut relay, shelf);
    Ok(Filled { relay, answer })
}

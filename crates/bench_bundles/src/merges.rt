//! Blocks with payloads merged into a shelf in memory, and beside it two copies of the payloads.

use crate::chains::{Fault, admit_final, new_relay};
use block_relay::Relay;
use bundle_merger::{Merged, merge_owned};
use memory_world::MemoryShelf;
use std::alloc::{AllocError, Global};

/// The most bytes that a payload has.
const BYTES_MAX: u64 = 1_000_000;

/// A payload of so many bytes, or of the most.
fn payload_of(alloc: Global, bytes: u64) -> Result<Vec<u8>, AllocError> {
    let bytes = bytes.min(BYTES_MAX) as usize;
    vec![in alloc; 0xa5; bytes]
}

/// A relay with a chain of so many final blocks, each with this payload, of which none is stored.
fn new_chain(alloc: Global, blocks: u64, payload: &[u8]) -> Result<Relay, Fault> {
    let mut relay = new_relay(alloc)?;
    for num in 1..blocks.saturating_add(1) {
        admit_final(alloc, &mut relay, num, payload)?;
    }
    Ok(relay)
}

/// How many blocks there are in a chain of so many, each with so many bytes.
pub fn chain_len(alloc: Global, blocks: u64, bytes: u64) -> Result<u64, Fault> {
    let payload = payload_of(alloc, bytes)?;
    let relay = new_chain(alloc, blocks, payload.as_slice())?;
    Ok(relay.len())
}

/// How many blocks of such a chain are stored after a merge.
pub fn merge_chain(alloc: Global, blocks: u64, bytes: u64) -> Result<u64, Fault> {
    let payload = payload_of(alloc, bytes)?;
    let mut relay = new_chain(alloc, blocks, payload.as_slice())?;
    let mut shelf = MemoryShelf::new(alloc);
    let merged = merge(alloc, &mut relay, &mut shelf)?;
    Ok(merged.stored)
}

/// Merges what is due.
pub fn merge(alloc: Global, relay: &mut Relay, shelf: &mut MemoryShelf) -> Result<Merged, Fault> {
    match merge_owned(alloc, relay, shelf) {
        Ok(merged) => Ok(merged),
        Err(_) => Err(Fault::Refused),
    }
}

/// How many bytes two copies of the payloads have, where such a chain is there: the second one goes to
/// a new place each time.
pub fn copy_payloads(alloc: Global, blocks: u64, bytes: u64) -> Result<u64, Fault> {
    let payload = payload_of(alloc, bytes)?;
    let relay = new_chain(alloc, blocks, payload.as_slice())?;
    let count = copied(alloc, relay.len(), payload.as_slice())?;
    Ok(count)
}

/// Copies a payload twice, so often, and gives how many bytes the second copies have.
fn copied(alloc: Global, rounds: u64, payload: &[u8]) -> Result<u64, AllocError> {
    let mut first = Vec::with_capacity(alloc, payload.len())?;
    let mut second = Vec::new(alloc);
    for _ in 0..rounds {
        first.clear();
        first.extend_from_slice(payload)?;
        second.extend_from_slice(first.as_slice())?;
    }
    Ok(second.len() as u64)
}

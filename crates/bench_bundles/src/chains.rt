//! Relays, and the blocks that they are offered.

use block_record::{Block, Bytes, Id, PAYLOAD_BYTES_MAX};
use block_relay::{Limits, Offered, Relay};
use itoa::Buffer;
use sha2::{Digest, Sha256};
use std::alloc::{AllocError, AllocFailed, Global};
use std::sync::Arc;

const LIMITS: Limits = Limits {
    line: 1_000,
    request: 1_000,
    wait_blocks: 0,
    wait_bytes: 0,
    history: 8_000_000,
    chunk: 2,
    deaths: 5,
    hold: 3,
};

/// Why there is no count.
#[derive(Drop)]
pub enum Fault {
    /// There was no memory.
    Mem,
    /// A block was not admitted, or a merge was refused.
    Refused,
    /// The words ask for nothing that there is.
    Words,
}

impl From<AllocError> for Fault {
    fn from(_: AllocError) -> Fault {
        Fault::Mem
    }
}

impl<T: Drop> From<AllocFailed<T>> for Fault {
    fn from(_: AllocFailed<T>) -> Fault {
        Fault::Mem
    }
}

/// A block of a branch by its number, which is one above its parent's, with the branch of the parent.
#[derive(Clone, Copy)]
pub struct Given {
    pub branch: u64,
    pub num: u64,
    pub parent_branch: u64,
    pub lib_num: u64,
}

/// No block.
pub fn new_relay(alloc: Global) -> Result<Relay, AllocError> {
    Relay::new(alloc, 0, 1, LIMITS)
}

/// Offers the next block of a chain, which is final at once.
pub fn admit_final(
    alloc: Global,
    relay: &mut Relay,
    num: u64,
    payload: &[u8],
) -> Result<(), Fault> {
    let given = Given {
        branch: 0,
        num,
        parent_branch: 0,
        lib_num: num,
    };
    admit(alloc, relay, given, payload)
}

/// Offers a block, which is to be admitted.
pub fn admit(alloc: Global, relay: &mut Relay, given: Given, payload: &[u8]) -> Result<(), Fault> {
    let block = block_of(alloc, given, payload)?;
    match relay.offer(block) {
        Ok(Offered::Admitted { .. }) => Ok(()),
        _ => Err(Fault::Refused),
    }
}

/// The block, with this payload.
fn block_of(alloc: Global, given: Given, payload: &[u8]) -> Result<Arc<Block>, Fault> {
    if given.num == 0 || payload.len() > PAYLOAD_BYTES_MAX {
        return Err(Fault::Refused);
    }
    let parent_num = given.num - 1;
    let id = id_of(alloc, given.branch, given.num)?;
    let parent_id = id_of(alloc, given.parent_branch, parent_num)?;
    let block = Block {
        num: given.num,
        id,
        parent_num,
        parent_id,
        lib_num: given.lib_num,
        time: 0,
        digest: Sha256::digest(payload),
        payload: Bytes::new(alloc, payload)?,
    };
    Ok(Arc::new(alloc, block)?)
}

/// The digits of four times the number and the branch.
fn id_of(alloc: Global, branch: u64, num: u64) -> Result<Id, Fault> {
    let mut buffer = Buffer::new();
    let text = buffer.format(num.saturating_mul(4).saturating_add(branch));
    match Id::new(alloc, text.as_bytes())? {
        Some(id) => Ok(id),
        None => Err(Fault::Refused),
    }
}

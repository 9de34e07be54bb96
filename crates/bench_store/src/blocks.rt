//! The blocks of a chain.

use block_record::{Block, Bytes, Id, Kind, PAYLOAD_BYTES_MAX, TypeName, Version};
use itoa::Buffer;
use sha2::{Digest, Sha256};
use std::alloc::{AllocError, Global};

/// The most bytes that a payload has.
const BYTES_MAX: u64 = 1_000_000;

/// Why something was not done.
#[derive(Drop)]
pub enum Fault {
    /// There was no memory.
    Mem,
    /// The shelf, a block or the output was refused.
    Refused,
    /// The words ask for nothing that there is.
    Words,
}

impl From<AllocError> for Fault {
    fn from(_: AllocError) -> Fault {
        Fault::Mem
    }
}

/// The kind of nodes that tell none.
pub fn kind_of(alloc: Global) -> Result<Kind, Fault> {
    match TypeName::new(alloc, b"-")? {
        Some(block_type) => Ok(Kind {
            version: Version::V3,
            block_type,
        }),
        None => Err(Fault::Refused),
    }
}

/// So many bytes, or the most.
pub fn payload_of(alloc: Global, bytes: u64) -> Result<Vec<u8>, AllocError> {
    let bytes = bytes.min(BYTES_MAX) as usize;
    vec![in alloc; 0xa5; bytes]
}

/// The block with this number and payload, which is final once the tenth block after it is there.
pub fn block_of(alloc: Global, num: u64, payload: &[u8]) -> Result<Block, Fault> {
    if num == 0 || payload.len() > PAYLOAD_BYTES_MAX {
        return Err(Fault::Refused);
    }
    let parent_num = num - 1;
    let id = id_of(alloc, num)?;
    let parent_id = id_of(alloc, parent_num)?;
    Ok(Block {
        num,
        id,
        parent_num,
        parent_id,
        lib_num: num.saturating_sub(10),
        time: num,
        digest: Sha256::digest(payload),
        payload: Bytes::new(alloc, payload)?,
    })
}

/// The digits of the number.
fn id_of(alloc: Global, num: u64) -> Result<Id, Fault> {
    let mut buffer = Buffer::new();
    let text = buffer.format(num);
    match Id::new(alloc, text.as_bytes())? {
        Some(id) => Ok(id),
        None => Err(Fault::Refused),
    }
}

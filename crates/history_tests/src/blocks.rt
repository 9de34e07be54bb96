//! Blocks that tests speak of.

use block_record::{Block, Bytes, Id};
use sha2::{Digest, Sha256};
use std::alloc::{AllocError, Global};

/// A block's number and id, its parent's number and id, and its lib number.
pub type Fields = (u64, &'static str, u64, &'static str, u64);

/// A block's number and id, its parent's number and id, its lib number, and its payload.
pub type Whole = (u64, &'static str, u64, &'static str, u64, &'static [u8]);

pub const A1: Whole = (1, "a1", 0, "a0", 0, b"1");

pub const B2: Whole = (2, "b2", 1, "a1", 1, b"1");

/// A block with these fields and no payload. None where they are no block's.
pub fn block_of(
    alloc: Global,
    (num, id, parent_num, parent_id, lib_num): Fields,
) -> Result<Option<Block>, AllocError> {
    whole_block(alloc, (num, id, parent_num, parent_id, lib_num, b""))
}

/// A block with these fields. None where they are no block's.
pub fn whole_block(
    alloc: Global,
    (num, id, parent_num, parent_id, lib_num, payload): Whole,
) -> Result<Option<Block>, AllocError> {
    let id = Id::new(alloc, id.as_bytes())?;
    let parent_id = Id::new(alloc, parent_id.as_bytes())?;
    match (id, parent_id) {
        (Some(id), Some(parent_id)) if parent_num < num && payload.len() <= 50_000_000 => {
            Ok(Some(Block {
                num,
                id,
                parent_num,
                parent_id,
                lib_num,
                time: 0,
                digest: Sha256::digest(payload),
                payload: Bytes::new(alloc, payload)?,
            }))
        }
        _ => Ok(None),
    }
}

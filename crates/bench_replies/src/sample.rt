//! A step, and the place after it.

use anyhow::{Result, bail};
use block_record::{Block, BlockRef, Bytes, Id, PAYLOAD_BYTES_MAX};
use chain_model::Place;
use sha2::{Digest, Sha256};
use std::alloc::Global;

/// The number of the block.
const NUM: u64 = 21_000_000;

/// The number of its parent.
const PARENT: u64 = 20_999_999;

/// The number of the block that is final.
const LIB: u64 = 20_999_936;

/// How long a block's payload and ids are, in bytes.
#[derive(Clone, Copy)]
pub struct Shape {
    pub payload: usize,
    pub id: usize,
}

/// A new block, and the place of a client that has it.
#[derive(Drop)]
pub struct Sample {
    pub block: Block,
    pub place: Place,
}

/// A block of this shape, whose place has it as its end, and as lib another block.
pub fn new_sample(alloc: Global, shape: Shape) -> Result<Sample> {
    Ok(Sample {
        block: block_of(alloc, shape)?,
        place: Place {
            end: Some(BlockRef {
                num: NUM,
                id: id_of(alloc, b'c', shape.id)?,
            }),
            lib: Some(BlockRef {
                num: LIB,
                id: id_of(alloc, b'a', shape.id)?,
            }),
        },
    })
}

/// A block of this shape.
fn block_of(alloc: Global, shape: Shape) -> Result<Block> {
    if shape.payload > PAYLOAD_BYTES_MAX {
        bail!("the payload is too long");
    }
    let payload = Bytes::from_vec(vec![in alloc; 0xa5; shape.payload]?);
    let digest = Sha256::digest(payload.as_bytes());
    Ok(Block {
        num: NUM,
        id: id_of(alloc, b'c', shape.id)?,
        parent_num: PARENT,
        parent_id: id_of(alloc, b'b', shape.id)?,
        lib_num: LIB,
        time: 1_764_640_800_000_000_000,
        payload,
        digest,
    })
}

/// The id that has this letter so often.
fn id_of(alloc: Global, letter: u8, length: usize) -> Result<Id> {
    let text = vec![in alloc; letter; length]?;
    match Id::new(alloc, text.as_slice())? {
        Some(id) => Ok(id),
        None => bail!("an id has no {length} bytes"),
    }
}

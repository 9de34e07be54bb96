//! Blocks of test.Block that plants are offered.

ghost use Rattle.std.specs.Prelude.{◌<◌};

use block_record::{Block, Bytes, Id, Kind, TypeName, Version};
use history_tests::blocks::{A1, B2, Whole, whole_block};
use sha2::{Digest, Sha256};
use std::alloc::Global;
use std::test::Fail;

/// A fork at 2 whose upper block is final, and a block that makes a bundle due.
pub const FORK: &[Whole] = &[
    A1,
    B2,
    (2, "c2", 1, "a1", 2, b"1"),
    (105, "z5", 2, "c2", 105, b"1"),
];

pub fn kind(alloc: Global) -> Result<Kind, Fail> {
    let block_type = TypeName::new(alloc, b"test.Block")?.ok_or("no type")?;
    Ok(Kind {
        version: Version::V3,
        block_type,
    })
}

/// A block with these fields.
pub fn block_of(alloc: Global, fields: Whole) -> Result<Block, Fail> {
    let block = whole_block(alloc, fields)?.ok_or("no block")?;
    Ok(block)
}

/// A block of a chain, whose ids are the letter a and the number. It is final at once.
pub fn chain_block(alloc: Global, num: u64, parent_num: u64) -> Result<Block, Fail> {
    if parent_num >= num {
        Err("no parent")?;
    }
    let block = block_on(alloc, num, parent_num)?;
    Ok(block)
}

fn block_on(alloc: Global, num: u64, parent_num: u64) -> Result<Block, Fail>
    requires { parent_num < num }
{
    let id = id_of(alloc, num)?;
    let parent_id = id_of(alloc, parent_num)?;
    let payload = b"1".as_slice();
    Ok(Block {
        num,
        id,
        parent_num,
        parent_id,
        lib_num: num,
        time: 0,
        digest: Sha256::digest(payload),
        payload: Bytes::new(alloc, payload)?,
    })
}

/// The letter a and the number.
fn id_of(alloc: Global, num: u64) -> Result<Id, Fail> {
    let text = format!(in alloc; "a{num}")?;
    let id = Id::new(alloc, text.as_bytes())?.ok_or("no id")?;
    Ok(id)
}

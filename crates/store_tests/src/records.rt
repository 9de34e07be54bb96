//! Records of the first form, of which several modules speak.

use block_record::{Block, decode};
use std::alloc::{AllocError, Global};
use std::test::Fail;

/// A block: its number and id, and those of its parent. Its lib number and time are 0.
pub type Given = (u64, &'static str, u64, &'static str);

pub const A1: Given = (1, "a1", 0, "a0");

/// The record of a block whose ids have two bytes, with a payload of one byte. It has 44 bytes.
fn record(alloc: Global, given: Given, payload: u8) -> Result<Vec<u8>, AllocError> {
    let (num, id, parent_num, parent_id) = given;
    let mut out = Vec::from_slice(alloc, &[1])?;
    out.extend_from_slice(&num.to_be_bytes())?;
    out.extend_from_slice(&parent_num.to_be_bytes())?;
    out.extend_from_slice(&[0; 16])?;
    out.push(2)?;
    out.extend_from_slice(id.as_bytes())?;
    out.push(2)?;
    out.extend_from_slice(parent_id.as_bytes())?;
    out.extend_from_slice(&[0, 0, 0, 1, payload])?;
    Ok(out)
}

/// Adds the record of a block after its length.
pub fn add_record(
    alloc: Global,
    out: &mut Vec<u8>,
    given: Given,
    payload: u8,
) -> Result<(), AllocError> {
    let record = record(alloc, given, payload)?;
    out.extend_from_slice(&[0, 0, 0, 44])?;
    out.extend_from_slice(record.as_slice())?;
    Ok(())
}

/// The block of such a record.
pub fn block(alloc: Global, given: Given, payload: u8) -> Result<Block, Fail> {
    let record = record(alloc, given, payload)?;
    let block = decode(alloc, record.as_slice()).ok().ok_or("no record")?;
    Ok(block)
}

//! Memory for slips that are copied later.

ghost use Rattle.std.specs.Prelude.{◌≤◌, OnOk, vec_len};

use block_record::SlipBuffer;
use std::alloc::{AllocError, Global};

/// Adds buffers until there are so many.
pub fn reserve_buffers(
    alloc: Global,
    most: usize,
    buffers: &mut Vec<SlipBuffer>,
) -> Result<(), AllocError>
    ensures enough { OnOk result (most ≤ vec_len buffers.new) }
    ensures grows { vec_len buffers.old ≤ vec_len buffers.new }
{
    let len = buffers.len();
    if most <= len {
        return Ok(());
    }
    for _ in len..most {
        let more = SlipBuffer::new(alloc)?;
        buffers.push(more)?;
    }
    Ok(())
}

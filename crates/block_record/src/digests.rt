//! The slip of a block.

ghost use Rattle.std.specs.Prelude.{◌≡◌, IfOk};
ghost use Rattle.block_record.specs.Slips.{slip};

use crate::blocks::{Block, Slip};
use std::alloc::{AllocError, Global};

/// The slip of the block. It hashes nothing, since the block has its payload's digest.
pub fn slip_of(alloc: Global, block: &Block) -> Result<Slip, AllocError>
    ensures { IfOk result (λ s. s ≡ slip block.now) }
{
    Ok(Slip {
        num: block.num,
        id: block.id.clone()?,
        parent_num: block.parent_num,
        parent_id: block.parent_id.clone()?,
        lib_num: block.lib_num,
        time: block.time,
        length: block.payload.as_bytes().len() as u32,
        digest: block.digest,
    })
}

/// A copy of the slip.
pub fn copy_slip(slip: &Slip) -> Result<Slip, AllocError>
    ensures { IfOk result (λ s. s ≡ slip.now) }
{
    let copied = slip.clone()?;
    Ok(copied)
}

/// The block's slip, made of the block's own ids. It takes no memory.
pub fn into_slip(block: Block) -> Slip
    ensures { result ≡ slip block }
{
    let Block {
        num,
        id,
        parent_num,
        parent_id,
        lib_num,
        time,
        payload,
        digest,
        ..
    } = block;
    Slip {
        num,
        id,
        parent_num,
        parent_id,
        lib_num,
        time,
        length: payload.as_bytes().len() as u32,
        digest,
    }
}

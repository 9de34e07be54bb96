//! A slip whose ids and digest are borrowed, so that a block is judged before its slip takes memory.

ghost use Rattle.std.specs.Prelude.{◌≡◌, IfOk};
ghost use Rattle.block_record.specs.Slips.{slip, same_slip};
ghost use Rattle.block_record.specs.SlipRefs.{slip_seen};

use crate::blocks::{Block, Slip};
use crate::ids::Id;
use std::alloc::AllocError;

/// The slip of a block, or a slip, seen where it stands.
#[derive(Clone, Copy, Debug)]
pub struct SlipRef<'a> {
    pub num: u64,
    pub id: &'a Id,
    pub parent_num: u64,
    pub parent_id: &'a Id,
    pub lib_num: u64,
    /// Nanoseconds since 1970-01-01 00:00:00 UTC.
    pub time: u64,
    /// The number of the payload's bytes.
    pub length: u32,
    /// The SHA-256 of the payload.
    pub digest: &'a [u8; 32],
}

impl<'a> SlipRef<'a> {
    /// The slip, seen.
    pub fn of_slip(whole: &'a Slip) -> SlipRef<'a>
        ensures { slip_seen result ≡ whole.now }
    {
        SlipRef {
            num: whole.num,
            id: &whole.id,
            parent_num: whole.parent_num,
            parent_id: &whole.parent_id,
            lib_num: whole.lib_num,
            time: whole.time,
            length: whole.length,
            digest: &whole.digest,
        }
    }

    /// The slip of the block, seen. It hashes nothing.
    pub fn of_block(block: &'a Block) -> SlipRef<'a>
        ensures { slip_seen result ≡ slip block.now }
    {
        SlipRef {
            num: block.num,
            id: &block.id,
            parent_num: block.parent_num,
            parent_id: &block.parent_id,
            lib_num: block.lib_num,
            time: block.time,
            length: block.payload.as_bytes().len() as u32,
            digest: &block.digest,
        }
    }

    /// Whether the slip is equal to another one, so that their blocks are the same.
    pub fn is_same(&self, other: &Slip) -> bool
        ensures { result ≡ same_slip (slip_seen self.now) other.now }
    {
        self.num == other.num
            && *self.id == other.id
            && self.parent_num == other.parent_num
            && *self.parent_id == other.parent_id
            && self.lib_num == other.lib_num
            && self.time == other.time
            && self.length == other.length
            && *self.digest == other.digest
    }

    /// A copy of the slip.
    pub fn to_slip(&self) -> Result<Slip, AllocError>
        ensures { IfOk result (λ copied. copied ≡ slip_seen self.now) }
    {
        Ok(Slip {
            num: self.num,
            id: self.id.clone()?,
            parent_num: self.parent_num,
            parent_id: self.parent_id.clone()?,
            lib_num: self.lib_num,
            time: self.time,
            length: self.length,
            digest: *self.digest,
        })
    }
}

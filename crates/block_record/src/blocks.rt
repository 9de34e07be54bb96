//! Blocks, their slips, and what a node says of itself.

ghost use Rattle.std.specs.Prelude.{◌≡◌, ◌≤◌, IfOk, length, IsTrue};
ghost use Rattle.sha2.specs.Sha256.{sha256};
ghost use Rattle.block_record.specs.Parents.{is_parent_num};

use crate::bytes::Bytes;
use crate::ids::Id;
use crate::types::TypeName;

/// The most bytes that a payload has.
pub const PAYLOAD_BYTES_MAX: usize = 50_000_000;

/// A block by number and id.
#[derive(Clone, PartialEq, Eq, Debug, Drop)]
pub struct BlockRef {
    pub num: u64,
    pub id: Id,
}

/// A block of a ledger.
#[derive(Debug, Drop)]
pub struct Block {
    pub num: u64,
    pub id: Id,
    /// Less than `num`, or both are 0.
    pub parent_num: u64,
    pub parent_id: Id,
    /// The number up to which the block holds its ancestors for final. Any value.
    pub lib_num: u64,
    /// Nanoseconds since 1970-01-01 00:00:00 UTC.
    pub time: u64,
    pub payload: Bytes,
    /// The SHA-256 of the payload, taken once, where the block is made.
    pub digest: [u8; 32],
    ghost parent_first: { IsTrue (is_parent_num parent_num num) },
    ghost small: { length payload ≤ 50_000_000 },
    ghost digested: { digest ≡ sha256 payload },
}

/// A block with the length and the SHA-256 of its payload in place of the payload. Two blocks are
/// the same where their slips are equal.
#[derive(Clone, PartialEq, Eq, Debug, Drop)]
pub struct Slip {
    pub num: u64,
    pub id: Id,
    pub parent_num: u64,
    pub parent_id: Id,
    pub lib_num: u64,
    /// Nanoseconds since 1970-01-01 00:00:00 UTC.
    pub time: u64,
    /// The number of the payload's bytes.
    pub length: u32,
    /// The SHA-256 of the payload.
    pub digest: [u8; 32],
}

/// The version of a node's lines. Lines of both are read with the same fields.
#[derive(Clone, Copy, PartialEq, Eq, Debug)]
pub enum Version {
    /// `1.0`
    V1,
    /// `3.0`
    V3,
}

/// What a node says of itself in its opening line.
#[derive(Clone, PartialEq, Eq, Debug, Drop)]
pub struct Kind {
    pub version: Version,
    pub block_type: TypeName,
}

//! The parts of a client: the line is read, and the payload hashed.

use block_record::Block;
use reply_reader::{Reply, ReplyFault, read_reply};
use sha2::{Digest, Sha256};
use std::alloc::{AllocError, Global};

/// Reads the line, and gives how many bytes the payloads that it said have together.
pub fn read_lines(alloc: Global, line: &[u8], rounds: u64) -> Result<u64, AllocError> {
    let mut done: u64 = 0;
    for _ in 0..rounds {
        let length = payload_read(alloc, line)?;
        done = done.saturating_add(length);
    }
    Ok(done)
}

/// How many bytes the payload of a line has. A line that says no step has none.
fn payload_read(alloc: Global, line: &[u8]) -> Result<u64, AllocError> {
    let text = line.strip_suffix(b"\n".as_slice()).unwrap_or(line);
    match read_reply(alloc, text) {
        Ok(Reply::Step { block, .. }) => Ok(block.payload.as_bytes().len() as u64),
        Err(ReplyFault::Mem) => Err(AllocError),
        _ => Ok(0),
    }
}

/// Hashes the payload, and gives how many bytes had the digest of the block.
pub fn hash_payloads(block: &Block, rounds: u64) -> u64 {
    let payload = block.payload.as_bytes();
    let mut done: u64 = 0;
    for _ in 0..rounds {
        if Sha256::digest(payload) == block.digest {
            done = done.saturating_add(payload.len() as u64);
        }
    }
    done
}

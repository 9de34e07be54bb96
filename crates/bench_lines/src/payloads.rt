//! What a payload costs at least.

use anyhow::{Result, bail};
use base64::engine::general_purpose::STANDARD;
use sha2::{Digest, Sha256};
use std::alloc::Global;

/// Decodes a payload of so many bytes and hashes it, so often, and gives how many bytes that were.
pub fn decode_rounds(alloc: Global, bytes: usize, rounds: u64) -> Result<u64> {
    let zeros = vec![in alloc; 0; bytes]?;
    let text = STANDARD.encode(alloc, zeros.as_slice())?;
    let mut decoded = vec![in alloc; 0; base64::decoded_len_estimate(text.len())]?;
    let mut done: u64 = 0;
    for _ in 0..rounds {
        let Ok(length) = STANDARD.decode_slice(text.as_bytes(), decoded.as_mut_slice()) else {
            bail!("the payload is not decoded");
        };
        let Some(payload) = decoded.get(..length) else {
            bail!("the payload is longer than its text");
        };
        if Sha256::digest(payload).is_empty() {
            bail!("the payload is not hashed");
        }
        done = done.saturating_add(length as u64);
    }
    Ok(done)
}

//! The fields of a block line.

ghost use Rattle.std.specs.Prelude.{◌≡◌, ◌≤◌, ◌==◌, ◌<◌, IfOk, IfSome, OnOk, Err, length, take, drop, slice_get, vec_len, IsTrue};
ghost use Rattle.std.specs.Option.{option_map};
ghost use Rattle.base64.specs.Decode.{decoded_estimate};
ghost use Rattle.block_record.specs.Number.{number_of};
ghost use Rattle.block_record.specs.Parents.{is_parent_num};
ghost use Rattle.block_record.specs.Slips.{slip};
ghost use Rattle.fire_lines.specs.Parts.{words_left};
ghost use Rattle.block_record.specs.Words.{result_map};
ghost use Rattle.fire_lines.specs.Fields.{field as field_as, id_of, parent_num_of, payload_of, slip_of_fields, at_line};
ghost use Rattle.fire_lines.specs.Reader.{UnlessMem};

use crate::faults::LineFault;
use crate::words::Words;
use base64::decoded_len_estimate;
use base64::engine::general_purpose::STANDARD;
use block_record::{Block, Bytes, Id, PAYLOAD_BYTES_MAX, read_number};
use sha2::{Digest, Sha256};
use std::alloc::{AllocError, Global};

/// The bytes of the longest text that is a payload.
const PAYLOAD_TEXT_BYTES_MAX: usize = 66_666_668;

/// Reads the next word as a number.
fn number_field(words: &mut Words<'_>, line: u64, field: u8) -> Result<u64, LineFault>
    ensures value { result
        ≡ at_line line (field_as field number_of (slice_get (words_left words.old) 0)) }
    ensures rest { words_left words.new ≡ drop 1 (words_left words.old) }
{
    let bad = LineFault::BadField { line, field };
    let text = words.next_word().ok_or(bad)?;
    read_number(text).ok_or(bad)
}

/// Reads the next word as the number of a block's parent.
fn parent_num_field(words: &mut Words<'_>, num: u64, line: u64) -> Result<u64, LineFault>
    ensures value { result
        ≡ at_line line (field_as 3 (parent_num_of num) (slice_get (words_left words.old) 0)) }
    ensures first { IfOk result (λ parent_num. IsTrue (is_parent_num parent_num num)) }
    ensures rest { words_left words.new ≡ drop 1 (words_left words.old) }
{
    let parent_num = number_field(words, line, 3)?;
    if parent_num < num || (num == 0 && parent_num == 0) {
        Ok(parent_num)
    } else {
        Err(LineFault::BadField { line, field: 3 })
    }
}

/// Reads the next word as an id.
fn id_field(alloc: Global, words: &mut Words<'_>, line: u64, field: u8) -> Result<Id, LineFault>
    ensures value { UnlessMem result (result
        ≡ at_line line (field_as field id_of (slice_get (words_left words.old) 0))) }
    ensures rest { words_left words.new ≡ drop 1 (words_left words.old) }
{
    let bad = LineFault::BadField { line, field };
    let text = words.next_word().ok_or(bad)?;
    Id::new(alloc, text)?.ok_or(bad)
}

/// Decodes a payload to the front of `decoded`, and gives its length.
#[tactic(auto, unfolding(crate::specs::Fields::payload_of))]
fn decode_into(text: &[u8], decoded: &mut [u8]) -> Option<usize>
    requires { decoded_estimate (length text.now) ≤ length decoded.old }
    ensures value { option_map (λ n. take n decoded.new) result ≡ payload_of text.now }
    ensures within { IfSome result (λ n. n ≤ length decoded.new) }
    ensures small { IfSome result (λ n. n ≤ 50_000_000) }
{
    match STANDARD.decode_slice_unchecked(text, decoded) {
        Ok(length) if length <= PAYLOAD_BYTES_MAX => Some(length),
        _ => None,
    }
}

/// Decodes a payload to the front of `decoded`, which grows as it needs, and gives its length.
fn decode(text: &[u8], decoded: &mut Vec<u8>) -> Result<Option<usize>, AllocError>
    ensures value { IfOk result
        (λ found. option_map (λ n. take n decoded.new.items) found ≡ payload_of text.now) }
    ensures within { IfOk result (λ found. IfSome found (λ n. n ≤ vec_len decoded.new)) }
    ensures small { IfOk result (λ found. IfSome found (λ n. n ≤ 50_000_000)) }
{
    if text.len() > PAYLOAD_TEXT_BYTES_MAX {
        return Ok(None);
    }
    let room = decoded_len_estimate(text.len());
    if decoded.len() < room {
        decoded.resize(room, 0)?;
    }
    Ok(decode_into(text, decoded.as_mut_slice()))
}

/// Decodes the next word as a payload to the front of `decoded`, and gives its length.
fn payload_field(
    words: &mut Words<'_>,
    decoded: &mut Vec<u8>,
    line: u64,
) -> Result<usize, LineFault>
    ensures value { UnlessMem result (result_map (λ n. take n decoded.new.items) result
        ≡ at_line line (field_as 7 payload_of (slice_get (words_left words.old) 0))) }
    ensures within { IfOk result (λ n. n ≤ vec_len decoded.new) }
    ensures small { IfOk result (λ n. n ≤ 50_000_000) }
    ensures rest { words_left words.new ≡ drop 1 (words_left words.old) }
{
    let bad = LineFault::BadField { line, field: 7 };
    let text = words.next_word().ok_or(bad)?;
    decode(text, decoded)?.ok_or(bad)
}

/// Reads the fields of a block line, which has this number.
pub fn read_block(
    alloc: Global,
    words: &mut Words<'_>,
    decoded: &mut Vec<u8>,
    line: u64,
) -> Result<Block, LineFault>
    ensures { UnlessMem result
        (result_map slip result ≡ at_line line (slip_of_fields (words_left words.old))) }
{
    let num = number_field(words, line, 1)?;
    let id = id_field(alloc, words, line, 2)?;
    let parent_num = parent_num_field(words, num, line)?;
    let parent_id = id_field(alloc, words, line, 4)?;
    let lib_num = number_field(words, line, 5)?;
    let time = number_field(words, line, 6)?;
    let length = payload_field(words, decoded, line)?;
    if words.next_word().is_some() {
        return Err(LineFault::BadField { line, field: 8 });
    }
    let payload = &decoded[..length];
    Ok(Block {
        num,
        id,
        parent_num,
        parent_id,
        lib_num,
        time,
        digest: Sha256::digest(payload),
        payload: Bytes::new(alloc, payload)?,
    })
}

//! The parts of a line: what stands at the front of a text, and what follows it.

ghost use Rattle.std.specs.Prelude.{◌≡◌, ◌≤◌, IfOk, length, [], codes};
ghost use Rattle.std.specs.Option.{option_copied, option_map};
ghost use Rattle.base64.specs.GeneralPurpose.{IsBytes};
ghost use Rattle.block_record.specs.Number.{number_of};
ghost use Rattle.fire_lines.specs.Fields.{id_of, payload_of};
ghost use Rattle.reply_reader.specs.Parts.{after_front as front_left, until, cut_at as cut_as, member, step_named as step_by_name, cursor_in};
ghost use Rattle.reply_reader.specs.Reading.{Gives};

use crate::replies::ReplyFault;
use base64::DecodeAllocError;
use base64::engine::general_purpose::STANDARD;
use block_record::{Bytes, Id, PAYLOAD_BYTES_MAX, read_number};
use chain_model::Step;
use memchr::memchr;
use std::alloc::Global;
use step_cursor::{Cursor, CursorFault, parse_cursor};

/// What follows these bytes, where the text begins with them.
pub fn after_front<'a>(front: &[u8], text: &'a [u8]) -> Option<&'a [u8]>
    ensures { option_copied result ≡ front_left front.now text.now }
{
    match text.strip_prefix(front) {
        Some(rest) => Some(rest),
        None => None,
    }
}

/// What follows these bytes. A text that doesn't begin with them is bad.
pub fn strip<'a>(front: &[u8], text: &'a [u8]) -> Result<&'a [u8], ReplyFault>
    ensures { Gives (λ rest. rest.now) result (front_left front.now text.now) }
{
    after_front(front, text).ok_or(ReplyFault::BadReply)
}

/// What stands before the first byte of a kind, and what follows it.
pub fn split_once(text: &[u8], end: u8) -> Option<(&[u8], &[u8])>
    ensures { option_map (λ cut. (cut.0.now, cut.1.now)) result ≡ until end text.now }
{
    let at = memchr(end, text)?;
    Some((&text[..at], &text[at + 1..]))
}

/// What stands after these bytes and before the first byte of a kind, and what follows it.
#[tactic(auto, unfolding(crate::specs::Parts::cut_at))]
pub fn cut_at<'a>(front: &[u8], end: u8, text: &'a [u8]) -> Result<(&'a [u8], &'a [u8]), ReplyFault>
    ensures { Gives (λ cut. (cut.0.now, cut.1.now)) result (cut_as front.now end text.now) }
{
    let rest = strip(front, text)?;
    split_once(rest, end).ok_or(ReplyFault::BadReply)
}

/// A member whose value is a number.
#[tactic(auto, unfolding(crate::specs::Parts::member))]
pub fn number_at<'a>(front: &[u8], end: u8, text: &'a [u8]) -> Result<(u64, &'a [u8]), ReplyFault>
    ensures { Gives (λ x. (x.0, x.1.now)) result (member front.now end number_of text.now) }
{
    let (word, rest) = cut_at(front, end, text)?;
    let number = read_number(word).ok_or(ReplyFault::BadReply)?;
    Ok((number, rest))
}

/// A member whose value is an id.
#[tactic(auto, unfolding(crate::specs::Parts::member))]
pub fn id_at<'a>(alloc: Global, front: &[u8], text: &'a [u8]) -> Result<(Id, &'a [u8]), ReplyFault>
    ensures { Gives (λ x. (x.0, x.1.now)) result (member front.now 34 id_of text.now) }
{
    let (word, rest) = cut_at(front, b'"', text)?;
    let id = Id::new(alloc, word)?.ok_or(ReplyFault::BadReply)?;
    Ok((id, rest))
}

/// The step that a word names.
fn step_named(word: &[u8]) -> Option<Step>
    ensures { result ≡ step_by_name word.now }
{
    if word == b"new".as_slice() {
        Some(Step::New)
    } else if word == b"undo".as_slice() {
        Some(Step::Undo)
    } else if word == b"final".as_slice() {
        Some(Step::Final)
    } else if word == b"newfinal".as_slice() {
        Some(Step::NewFinal)
    } else {
        None
    }
}

/// The step at the front.
#[tactic(auto, unfolding(crate::specs::Parts::member))]
pub fn step_at(text: &[u8]) -> Result<(Step, &[u8]), ReplyFault>
    ensures { Gives (λ x. (x.0, x.1.now)) result (member [] 34 step_by_name text.now) }
{
    let (word, rest) = cut_at(b"".as_slice(), b'"', text)?;
    let step = step_named(word).ok_or(ReplyFault::BadReply)?;
    Ok((step, rest))
}

/// The payload that a text in base64 is. It stands apart since the engine's tables are made anew in
/// each call that names it.
#[inline(never)]
#[tactic(auto, unfolding(fire_lines::specs::Fields::payload_of))]
fn payload(alloc: Global, text: &[u8]) -> Result<Bytes, ReplyFault>
    ensures value { Gives (λ bytes. bytes) result (payload_of text.now) }
    ensures small { IfOk result (λ bytes. length bytes ≤ 50_000_000) }
    ensures bytes { IfOk result (λ bytes. IsBytes bytes) }
{
    match STANDARD.decode(alloc, text) {
        Ok(decoded) => {
            if decoded.len() <= PAYLOAD_BYTES_MAX {
                Ok(Bytes::from_vec(decoded))
            } else {
                Err(ReplyFault::BadReply)
            }
        }
        Err(DecodeAllocError::DecodeError(_)) => Err(ReplyFault::BadReply),
        Err(DecodeAllocError::OutOfMemory) => Err(ReplyFault::Mem),
    }
}

/// The member of a payload.
#[tactic(auto, unfolding(crate::specs::Parts::member))]
pub fn payload_at(alloc: Global, text: &[u8]) -> Result<(Bytes, &[u8]), ReplyFault>
    ensures value { Gives (λ x. (x.0, x.1.now)) result
        (member (codes "\"payload\":\"") 34 payload_of text.now) }
    ensures small { IfOk result (λ x. length x.0 ≤ 50_000_000) }
    ensures bytes { IfOk result (λ x. IsBytes x.0) }
{
    let (word, rest) = cut_at(b"\"payload\":\"".as_slice(), b'"', text)?;
    let bytes = payload(alloc, word)?;
    Ok((bytes, rest))
}

/// The cursor whose text this is.
fn cursor(alloc: Global, text: &[u8]) -> Result<Cursor, ReplyFault>
    ensures { Gives (λ c. c) result (cursor_in text.now) }
{
    match parse_cursor(alloc, text) {
        Ok(cursor) => Ok(cursor),
        Err(CursorFault::Malformed { at: _ }) => Err(ReplyFault::BadReply),
        Err(CursorFault::Mem) => Err(ReplyFault::Mem),
    }
}

/// The member of a cursor.
#[tactic(auto, unfolding(crate::specs::Parts::member))]
pub fn cursor_at(alloc: Global, text: &[u8]) -> Result<(Cursor, &[u8]), ReplyFault>
    ensures { Gives (λ x. (x.0, x.1.now)) result
        (member (codes ",\"cursor\":\"") 34 cursor_in text.now) }
{
    let (word, rest) = cut_at(b",\"cursor\":\"".as_slice(), b'"', text)?;
    let cursor = cursor(alloc, word)?;
    Ok((cursor, rest))
}

//! Lines of errors.

ghost use Rattle.std.specs.Prelude.{◌≡◌, OnOk, IfErr, true, false};
ghost use Rattle.std.specs.Str.{bytes_eq};
ghost use Rattle.std.specs.Option.{is_some};
ghost use Rattle.reply_reader.specs.Parts.{member};
ghost use Rattle.fire_lines.specs.Fields.{id_of};
ghost use Rattle.reply_reader.specs.declared.replies.ReplyFault.TheVariants.{BadReply};
ghost use Rattle.reply_reader.specs.Reading.{Gives, Confirms, request_field, misfit_field, name_at as name_as, bad_request_in, malformed_in, unknown_in, misfit_in, stop_below_in, stored_other_in, shelf_bad_in, missing_in, bare_error, plain_error, error_by, error_in};

use crate::parts::{cut_at, number_at, split_once, strip};
use crate::quoted::quoted;
use crate::replies::ReplyFault;
use block_record::is_id;
use std::alloc::Global;

/// Whether a word names a part of a request.
fn is_request_field(word: &[u8]) -> bool
    ensures { result ≡ is_some (request_field word.now) }
{
    word == b"shape".as_slice()
        || word == b"extra".as_slice()
        || word == b"start_block_num".as_slice()
        || word == b"stop_block_num".as_slice()
        || word == b"final_blocks_only".as_slice()
        || word == b"cursor".as_slice()
}

/// Whether a word names a part of a cursor.
fn is_misfit_field(word: &[u8]) -> bool
    ensures { result ≡ is_some (misfit_field word.now) }
{
    word == b"block".as_slice()
        || word == b"end".as_slice()
        || word == b"lib".as_slice()
        || word == b"step".as_slice()
        || word == b"seen".as_slice()
}

/// Refuses a text that is not this one.
pub fn end_with(end: &[u8], text: &[u8]) -> Result<(), ReplyFault>
    ensures ok { OnOk result (bytes_eq text.now end.now ≡ true) }
    ensures err { IfErr result (λ e. (e ≡ BadReply) × (bytes_eq text.now end.now ≡ false)) }
{
    if text == end {
        Ok(())
    } else {
        Err(ReplyFault::BadReply)
    }
}

#[tactic(auto, unfolding(crate::specs::Parts::member))]
fn bad_request(text: &[u8]) -> Result<(), ReplyFault>
    ensures { Confirms result (bad_request_in text.now) }
{
    let (word, rest) = cut_at(b",\"field\":\"".as_slice(), b'"', text)?;
    if is_request_field(word) && rest == b"}".as_slice() {
        Ok(())
    } else {
        Err(ReplyFault::BadReply)
    }
}

#[tactic(auto, unfolding(crate::specs::Parts::member))]
fn misfit(text: &[u8]) -> Result<(), ReplyFault>
    ensures { Confirms result (misfit_in text.now) }
{
    let (word, rest) = cut_at(b",\"field\":\"".as_slice(), b'"', text)?;
    if is_misfit_field(word) && rest == b"}".as_slice() {
        Ok(())
    } else {
        Err(ReplyFault::BadReply)
    }
}

fn malformed(text: &[u8]) -> Result<(), ReplyFault>
    ensures { Confirms result (malformed_in text.now) }
{
    let (_at, rest) = number_at(b",\"at\":".as_slice(), b'}', text)?;
    end_with(b"".as_slice(), rest)
}

fn stop_below(text: &[u8]) -> Result<(), ReplyFault>
    ensures { Confirms result (stop_below_in text.now) }
{
    let (_end, rest) = number_at(b",\"end\":".as_slice(), b'}', text)?;
    end_with(b"".as_slice(), rest)
}

fn unknown(text: &[u8]) -> Result<(), ReplyFault>
    ensures { Confirms result (unknown_in text.now) }
{
    let (_id, rest) = id_text_at(b",\"id\":\"".as_slice(), text)?;
    end_with(b"}".as_slice(), rest)
}

/// A member whose value is an id, which isn't copied.
#[tactic(auto, unfolding(crate::specs::Parts::member))]
fn id_text_at<'a>(front: &[u8], text: &'a [u8]) -> Result<(&'a [u8], &'a [u8]), ReplyFault>
    ensures { Gives (λ x. (x.0.now, x.1.now)) result (member front.now 34 id_of text.now) }
{
    let (word, rest) = cut_at(front, b'"', text)?;
    if is_id(word) {
        Ok((word, rest))
    } else {
        Err(ReplyFault::BadReply)
    }
}

fn stored_other(text: &[u8]) -> Result<(), ReplyFault>
    ensures { Confirms result (stored_other_in text.now) }
{
    let (_num, rest) = number_at(b",\"num\":".as_slice(), b',', text)?;
    let (_id, rest) = id_text_at(b"\"id\":\"".as_slice(), rest)?;
    end_with(b"}".as_slice(), rest)
}

/// The member of a file's name.
fn name_at(alloc: Global, text: &[u8]) -> Result<(Vec<u8>, &[u8]), ReplyFault>
    ensures { Gives (λ x. (x.0.items, x.1.now)) result (name_as text.now) }
{
    let rest = strip(b",\"name\":\"".as_slice(), text)?;
    let found = quoted(alloc, rest)?;
    Ok(found)
}

fn shelf_bad(alloc: Global, text: &[u8]) -> Result<(), ReplyFault>
    ensures { Confirms result (shelf_bad_in text.now) }
{
    let (_name, rest) = name_at(alloc, text)?;
    let (_at, rest) = number_at(b",\"at\":".as_slice(), b'}', rest)?;
    end_with(b"".as_slice(), rest)
}

fn missing(alloc: Global, text: &[u8]) -> Result<(), ReplyFault>
    ensures { Confirms result (missing_in text.now) }
{
    let (_name, rest) = name_at(alloc, text)?;
    end_with(b"}".as_slice(), rest)
}

/// Reads the end of an error that has no members but its word.
fn bare(word: &[u8], text: &[u8]) -> Result<(), ReplyFault>
    ensures { Confirms result (bare_error word.now text.now) }
{
    if word == b"too_long".as_slice() {
        end_with(b"}".as_slice(), text)
    } else if word == b"shelf".as_slice() {
        end_with(b"}".as_slice(), text)
    } else if word == b"spent".as_slice() {
        end_with(b"}".as_slice(), text)
    } else if word == b"memory".as_slice() {
        end_with(b"}".as_slice(), text)
    } else {
        Err(ReplyFault::BadReply)
    }
}

/// Reads the members of an error that names no file, after its word.
fn plain(word: &[u8], text: &[u8]) -> Result<(), ReplyFault>
    ensures { Confirms result (plain_error word.now text.now) }
{
    if word == b"bad_request".as_slice() {
        bad_request(text)
    } else if word == b"malformed".as_slice() {
        malformed(text)
    } else if word == b"unknown".as_slice() {
        unknown(text)
    } else if word == b"misfit".as_slice() {
        misfit(text)
    } else if word == b"stop_below".as_slice() {
        stop_below(text)
    } else if word == b"stored_other".as_slice() {
        stored_other(text)
    } else {
        bare(word, text)
    }
}

/// Reads the members of an error after its word.
fn by_word(alloc: Global, word: &[u8], text: &[u8]) -> Result<(), ReplyFault>
    ensures { Confirms result (error_by word.now text.now) }
{
    if word == b"shelf_bad".as_slice() {
        shelf_bad(alloc, text)
    } else if word == b"missing".as_slice() {
        missing(alloc, text)
    } else {
        plain(word, text)
    }
}

/// Reads an error, from its word on.
#[tactic(auto, unfolding(crate::specs::Reading::error_in))]
pub fn read_error(alloc: Global, text: &[u8]) -> Result<(), ReplyFault>
    ensures { Confirms result (error_in text.now) }
{
    let (word, rest) = split_once(text, b'"').ok_or(ReplyFault::BadReply)?;
    by_word(alloc, word, rest)
}

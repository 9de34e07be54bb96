//! The words of a line, separated by exactly one space.

ghost use Rattle.std.specs.Prelude.{◌≡◌, ◌<◌, IfSome, length};
ghost use Rattle.std.specs.List.{list_all, position};
ghost use Rattle.std.specs.Option.{option_copied};
ghost use Rattle.block_record.specs.Texts.{is_reader_byte};
ghost use Rattle.script_text.specs.Words.{is_space, first_word as word_first, after_word as word_left, is_name as is_name_text, is_own_word, name_of, base64_of, number_after as number_left, count_after as count_left};
ghost use Rattle.script_text.specs.Reading.{Gives};

use crate::faults::LineFault;
use base64::DecodeAllocError;
use base64::engine::general_purpose::STANDARD;
use block_record::{Bytes, ReaderName, read_number};
use std::alloc::Global;

/// Where the first space stands.
fn first_space(text: &[u8]) -> Option<usize>
    ensures place { result ≡ position is_space text.now }
    ensures within { IfSome result (λ place. place < length text.now) }
{
    text.iter().position(|byte| *byte == b' ')
}

/// What stands before the first space, or the whole text.
pub fn first_word(text: &[u8]) -> &[u8]
    ensures { result.now ≡ word_first text.now }
{
    match first_space(text) {
        Some(place) => &text[..place],
        None => text,
    }
}

/// What stands after the first space.
pub fn after_word(text: &[u8]) -> Option<&[u8]>
    ensures { option_copied result ≡ word_left text.now }
{
    match first_space(text) {
        Some(place) => Some(&text[place + 1..]),
        None => None,
    }
}

/// What stands after the first space. A text without one is bad.
pub fn rest(text: &[u8]) -> Result<&[u8], LineFault>
    ensures { Gives (λ rest. rest.now) result (word_left text.now) }
{
    match after_word(text) {
        Some(rest) => Ok(rest),
        None => Err(LineFault::Bad),
    }
}

/// Whether a text is a name.
fn is_name(text: &[u8]) -> bool
    ensures { result ≡ is_name_text text.now }
{
    !text.is_empty() && text.len() <= 32 && has_name_bytes(text) && !is_kept_back(text)
}

fn has_name_bytes(text: &[u8]) -> bool
    ensures { result ≡ list_all is_reader_byte text.now }
{
    text.iter().all(|byte| is_name_byte(*byte))
}

fn is_name_byte(byte: u8) -> bool
    ensures { result ≡ is_reader_byte byte }
{
    byte.is_ascii_lowercase() || byte.is_ascii_digit() || byte == b'_'
}

/// Whether a text is a word with which a replay begins lines of its own.
fn is_kept_back(text: &[u8]) -> bool
    ensures { result ≡ is_own_word text.now }
{
    text == b"load".as_slice() || text == b"merge".as_slice()
}

/// The name that a text is.
pub fn name(alloc: Global, text: &[u8]) -> Result<Bytes, LineFault>
    ensures { Gives (λ name. name) result (name_of text.now) }
{
    if !is_name(text) {
        return Err(LineFault::Bad);
    }
    let name = Bytes::new(alloc, text)?;
    Ok(name)
}

/// The same, of a reader.
pub fn reader(alloc: Global, text: &[u8]) -> Result<ReaderName, LineFault>
    ensures { Gives (λ name. name) result (name_of text.now) }
{
    if !is_name(text) {
        return Err(LineFault::Bad);
    }
    let name = ReaderName::new(alloc, text)?.ok_or(LineFault::Bad)?;
    Ok(name)
}

/// The number that stands after the first space.
pub fn number_after(text: &[u8]) -> Option<u64>
    ensures { result ≡ number_left text.now }
{
    read_number(after_word(text)?)
}

/// The same, where it is at least 1.
pub fn count_after(text: &[u8]) -> Option<u64>
    ensures { result ≡ count_left text.now }
{
    let number = number_after(text)?;
    if number == 0 { None } else { Some(number) }
}

/// The bytes that a text in base64 is. It stands apart since the engine's tables are made anew in
/// each call that names it.
#[inline(never)]
#[tactic(auto, unfolding(crate::specs::Words::base64_of))]
pub fn decoded(alloc: Global, text: &[u8]) -> Result<Bytes, LineFault>
    ensures { Gives (λ bytes. bytes) result (base64_of text.now) }
{
    match STANDARD.decode(alloc, text) {
        Ok(bytes) => Ok(Bytes::from_vec(bytes)),
        Err(DecodeAllocError::DecodeError(_)) => Err(LineFault::Bad),
        Err(DecodeAllocError::OutOfMemory) => Err(LineFault::Mem),
    }
}

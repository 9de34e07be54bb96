//! The parts of a name from its text.

ghost use Rattle.std.specs.Prelude.{◌≡◌, ◌==◌, IfOk, IfSome, slice_get};
ghost use Rattle.std.specs.List.{slice_split};
ghost use Rattle.std.specs.Option.{option_copied, option_map};
ghost use Rattle.block_record.specs.Number.{number_of};
ghost use Rattle.block_record.specs.Texts.{IsId};
ghost use Rattle.one_block.specs.Names.{is_id_end as may_end, name_parts, passing, word_at as word_read};
ghost use Rattle.one_block.specs.Numerals.{filled_number};
ghost use Rattle.one_block.specs.Reading.{tenths_named};
ghost use Rattle.one_block.specs.Seen.{seen, parts_seen, HasIdEnds, words_named, with_reader};

use crate::names::NameParts;
use crate::read::{read_filled, read_tenths};
use block_record::{Id, ReaderName, is_id, read_number};
use outer_world::FileName;
use std::alloc::{AllocError, Global};

/// The parts of a name with texts that aren't copied.
#[derive(Clone, Copy)]
pub struct NameTexts<'a> {
    pub num: u64,
    pub tenths: u64,
    pub id_end: &'a [u8],
    pub parent_end: &'a [u8],
    pub lib_num: u64,
    pub reader: &'a [u8],
}

/// The parts of a one-block name without folder and ending, or none where the text is no such name.
pub fn parse_name(alloc: Global, name: &FileName) -> Result<Option<NameParts>, AllocError>
    ensures { IfOk result (λ found. found ≡ name_parts name.now) }
{
    let words = split(alloc, name.as_bytes())?;
    match read_words(words.as_slice()) {
        Some(texts) => {
            let parts = texts.to_parts(alloc)?;
            Ok(parts)
        }
        None => Ok(None),
    }
}

impl<'a> NameTexts<'a> {
    /// The parts with copies of their texts, or none where the last is no reader.
    fn to_parts(self, alloc: Global) -> Result<Option<NameParts>, AllocError>
        requires { HasIdEnds (parts_seen self) }
        ensures { IfOk result (λ found. found ≡ with_reader (parts_seen self.entry)) }
    {
        let Some(reader) = ReaderName::new(alloc, self.reader)? else {
            return Ok(None);
        };
        let id_end = to_id(alloc, self.id_end)?;
        let parent_end = to_id(alloc, self.parent_end)?;
        Ok(Some(NameParts {
            num: self.num,
            tenths: self.tenths,
            id_end,
            parent_end,
            lib_num: self.lib_num,
            reader,
        }))
    }
}

/// The id with this text.
fn to_id(alloc: Global, text: &[u8]) -> Result<Id, AllocError>
    requires { IsId text.now }
    ensures { IfOk result (λ id. id ≡ text.now) }
{
    let Some(id) = Id::new(alloc, text)? else {
        unreachable!();
    };
    Ok(id)
}

/// The parts that six words are, where the last may be no reader.
fn read_words<'a>(words: &[&'a [u8]]) -> Option<NameTexts<'a>>
    ensures value { option_map parts_seen result ≡ words_named (seen words.now) }
    ensures ends { IfSome result (λ texts. HasIdEnds (parts_seen texts)) }
{
    let num = filled_at(words, 0)?;
    let tenths = tenths_at(words, 1)?;
    let id_end = end_at(words, 2)?;
    let parent_end = end_at(words, 3)?;
    let lib_num = number_at(words, 4)?;
    let reader = word_at(words, 5)?;
    if words.len() != 6 {
        return None;
    }
    Some(NameTexts {
        num,
        tenths,
        id_end,
        parent_end,
        lib_num,
        reader,
    })
}

/// The words of a text between its dashes.
fn split(alloc: Global, text: &[u8]) -> Result<Vec<&[u8]>, AllocError>
    ensures { IfOk result (λ words. seen words.items ≡ slice_split (λ b. b == 45) text.now) }
{
    text.split(|b| *b == b'-').collect(alloc)
}

/// The word at an index, where there is one.
fn word_at<'a>(words: &[&'a [u8]], index: usize) -> Option<&'a [u8]>
    ensures { option_copied result ≡ slice_get (seen words.now) index }
{
    words.get(index).copied()
}

/// The number that a word is, where zeros fill it to ten digits.
fn filled_at(words: &[&[u8]], index: usize) -> Option<u64>
    ensures { result ≡ word_read (filled_number 10) (seen words.now) index }
{
    read_filled(10, word_at(words, index)?)
}

/// The moment that a word is, in tenths of seconds.
fn tenths_at(words: &[&[u8]], index: usize) -> Option<u64>
    ensures { result ≡ word_read tenths_named (seen words.now) index }
{
    read_tenths(word_at(words, index)?)
}

/// The number that a word is.
fn number_at(words: &[&[u8]], index: usize) -> Option<u64>
    ensures { result ≡ word_read number_of (seen words.now) index }
{
    read_number(word_at(words, index)?)
}

/// The end of an id that a word is.
fn end_at<'a>(words: &[&'a [u8]], index: usize) -> Option<&'a [u8]>
    ensures { option_copied result ≡ word_read (passing may_end) (seen words.now) index }
{
    word_at(words, index).filter(|text| is_id_end(text))
}

/// Whether a text may be the end of an id.
fn is_id_end(text: &[u8]) -> bool
    ensures { result ≡ may_end text.now }
{
    is_id(text) && text.len() <= 16
}

//! The parts of a plain text, read without a copy of the ids.

ghost use Rattle.std.specs.Prelude.{◌≡◌, ◌<◌, [], slice_get, option_and_then};
ghost use Rattle.std.specs.Option.{option_copied, option_map, unwrap_or};
ghost use Rattle.block_record.specs.Number.{number_of};
ghost use Rattle.step_cursor.specs.CursorParts.{form_named as form_by_name, step_named as step_by_name, id_of, is_text};
ghost use Rattle.block_record.specs.Words.{result_map};
ghost use Rattle.step_cursor.specs.Reading.{seen as texts, ref_seen, cursor_seen, ref_at, pair_at, second_at, third_of, tail_of, end_by, lib_by, whole_of, rest_of, cursor_of};

use crate::cursor::Tail;
use crate::form::{Form, form_named, step_named};
use crate::refs::{CursorView, RefView};
use block_record::{is_id, read_number};
use chain_model::Step;

/// The text at an index, where there is one.
fn text_at<'a>(parts: &[&'a [u8]], index: usize) -> Option<&'a [u8]>
    ensures { option_copied result ≡ slice_get (texts parts.now) index }
{
    parts.get(index).copied()
}

/// What stands before the first slash.
pub fn front<'a>(parts: &[&'a [u8]]) -> &'a [u8]
    ensures { result.now ≡ unwrap_or (slice_get (texts parts.now) 0) [] }
{
    text_at(parts, 0).unwrap_or(b"")
}

/// The form that a part names.
fn form(part: Option<&[u8]>) -> Option<Form>
    ensures { result ≡ option_and_then form_by_name (option_copied part.entry) }
{
    form_named(part?)
}

/// The step whose number a part is.
fn step(part: Option<&[u8]>) -> Option<Step>
    ensures { result ≡ option_and_then step_by_name (option_copied part.entry) }
{
    step_named(part?)
}

/// The number that a part is.
fn number(part: Option<&[u8]>) -> Option<u64>
    ensures { result ≡ option_and_then number_of (option_copied part.entry) }
{
    read_number(part?)
}

/// The id that a part is.
fn id(part: Option<&[u8]>) -> Option<&[u8]>
    ensures { option_copied result ≡ option_and_then id_of (option_copied part.entry) }
{
    part.filter(|text| is_id(text))
}

/// Whether a part is this text.
fn is(part: Option<&[u8]>, text: &[u8]) -> bool
    ensures { result ≡ is_text text.now (option_copied part.entry) }
{
    part.is_some_and(|part| part == text)
}

/// Reads the block whose number is the word at the index, and whose id is the next. A bad number has
/// the place `at`, and a bad id the next place.
fn read_ref<'a>(words: &[&'a [u8]], index: usize, at: u8) -> Result<RefView<'a>, u8>
    requires index { index < 8 }
    requires at { at < 8 }
    ensures { result_map ref_seen result ≡ ref_at (texts words.now) index at }
{
    let num = number(text_at(words, index)).ok_or(at)?;
    let id = id(text_at(words, index + 1)).ok_or(at + 1)?;
    Ok(RefView { num, id })
}

/// The same of a block that may be missing.
fn read_pair<'a>(words: &[&'a [u8]], index: usize, at: u8) -> Result<Option<RefView<'a>>, u8>
    requires index { index < 8 }
    requires at { at < 8 }
    ensures { result_map (option_map ref_seen) result ≡ pair_at (texts words.now) index at }
{
    if is(text_at(words, index), b"0") && is(text_at(words, index + 1), b"-") {
        return Ok(None);
    }
    let block = read_ref(words, index, at)?;
    Ok(Some(block))
}

/// Reads the second pair after the block, where the form has one.
fn read_second<'a>(form: Form, words: &[&'a [u8]]) -> Result<Option<RefView<'a>>, u8>
    ensures { result_map (option_map ref_seen) result ≡ second_at form (texts words.now) }
{
    match form {
        Form::AtEnd | Form::AtLib => Ok(None),
        Form::Apart => {
            let second = read_pair(words, 6, 7)?;
            Ok(second)
        }
    }
}

/// The third of three parts.
fn third<'a>(parts: &[&'a [u8]]) -> Option<&'a [u8]>
    ensures { option_copied result ≡ third_of (texts parts.now) }
{
    if parts.len() == 3 {
        text_at(parts, 2)
    } else {
        None
    }
}

/// Reads the tail that the parts after the first are.
fn read_tail(parts: &[&[u8]]) -> Result<Option<Tail>, u8>
    ensures { result ≡ tail_of (texts parts.now) }
{
    if parts.len() == 1 {
        return Ok(None);
    }
    let run = number(text_at(parts, 1)).ok_or(9u8)?;
    let seen = number(third(parts)).ok_or(10u8)?;
    Ok(Some(Tail { run, seen }))
}

/// The end and the lib that a form gives to its block and the pairs after it.
fn place_of<'a>(
    form: Form,
    block: RefView<'a>,
    first: Option<RefView<'a>>,
    second: Option<RefView<'a>>,
) -> (Option<RefView<'a>>, Option<RefView<'a>>)
    ensures end { option_map ref_seen result.0
        ≡ end_by form (ref_seen block.entry) (option_map ref_seen first.entry) }
    ensures lib { option_map ref_seen result.1
        ≡ lib_by form (ref_seen block.entry) (option_map ref_seen first.entry)
        (option_map ref_seen second.entry) }
{
    match form {
        Form::AtEnd => (Some(block), first),
        Form::AtLib => (first, Some(block)),
        Form::Apart => (first, second),
    }
}

/// The cursor, where no more words follow and no earlier form fits it.
fn whole<'a>(form: Form, words: usize, read: CursorView<'a>) -> Result<CursorView<'a>, u8>
    ensures { result_map cursor_seen result ≡ whole_of form words (cursor_seen read.entry) }
{
    if words == form.word_count() && Form::of(read.block, read.end, read.lib) == form {
        Ok(read)
    } else {
        Err(11)
    }
}

/// Reads the words of a form after the first two, and the parts of the tail.
fn read_rest<'a>(
    form: Form,
    step: Step,
    words: &[&'a [u8]],
    parts: &[&'a [u8]],
) -> Result<CursorView<'a>, u8>
    ensures { result_map cursor_seen result
        ≡ rest_of form step (texts words.now) (texts parts.now) }
{
    let block = read_ref(words, 2, 3)?;
    let first = read_pair(words, 4, 5)?;
    let second = read_second(form, words)?;
    let tail = read_tail(parts)?;
    let (end, lib) = place_of(form, block, first, second);
    let read = CursorView {
        step,
        block,
        end,
        lib,
        tail,
    };
    let read = whole(form, words.len(), read)?;
    Ok(read)
}

/// Reads the words between the colons and the parts between the slashes of a plain text, or gives the
/// place of the first bad part.
pub fn read_cursor<'a>(words: &[&'a [u8]], parts: &[&'a [u8]]) -> Result<CursorView<'a>, u8>
    ensures { result_map cursor_seen result ≡ cursor_of (texts words.now) (texts parts.now) }
{
    let form = form(text_at(words, 0)).ok_or(1u8)?;
    let step = step(text_at(words, 1)).ok_or(2u8)?;
    let read = read_rest(form, step, words, parts)?;
    Ok(read)
}

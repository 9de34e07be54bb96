//! The text of a cursor.

ghost use Rattle.std.specs.Prelude.{◌≡◌, ◌++◌, ◌∷◌, [], IfOk, OnOk, OnErr};
ghost use Rattle.std.specs.Fmt.{decimal};
ghost use Rattle.std.specs.Option.{option_map};
ghost use Rattle.step_cursor.specs.CursorText.{form_word, step_number as number_as, pair_words, place_words, plain_text as plain_text_of, cursor_text, tail_parts, IsPrintable};
ghost use Rattle.step_cursor.specs.Reading.{each_after, ref_seen, cursor_seen};

use crate::cursor::{Cursor, Tail};
use crate::form::{Form, step_number};
use crate::refs::{CursorView, RefView};
use base64::engine::general_purpose::URL_SAFE_NO_PAD;
use chain_model::Step;
use std::alloc::{AllocError, Global};
use text_parts::{Part, encode_tail, keep_front, push_parts};

/// The text of the cursor: base64url without padding. Each cursor has one.
pub fn print_cursor(alloc: Global, cursor: &Cursor) -> Result<Vec<u8>, AllocError>
    ensures text { IfOk result (λ text. text.items ≡ cursor_text cursor.now) }
    ensures printable { OnOk result (IsPrintable cursor.now) }
{
    let mut text = Vec::new(alloc);
    push_cursor(CursorView::of(cursor), &mut text)?;
    Ok(text)
}

/// Appends the text of the cursor. It copies no id and takes no memory but that of the bytes, which
/// stay as they are where there is none.
pub fn push_cursor(cursor: CursorView<'_>, text: &mut Vec<u8>) -> Result<(), AllocError>
    ensures ok { OnOk result
        (text.new.items ≡ text.old.items ++ cursor_text (cursor_seen cursor.entry)) }
    ensures err { OnErr result (text.new.items ≡ text.old.items) }
{
    let kept = text.len();
    push_plain(cursor, text)?;
    let pushed = encode_tail(&URL_SAFE_NO_PAD, kept, text);
    keep_front(pushed, kept, text)
}

/// Appends the plain text of the cursor.
fn push_plain(cursor: CursorView<'_>, text: &mut Vec<u8>) -> Result<(), AllocError>
    ensures ok { OnOk result
        (text.new.items ≡ text.old.items ++ plain_text_of (cursor_seen cursor.entry)) }
    ensures err { OnErr result (text.new.items ≡ text.old.items) }
{
    let form = Form::of(cursor.block, cursor.end, cursor.lib);
    let kept = text.len();
    push_front(form, cursor.step, cursor.block, text)?;
    let pushed = push_rest(form, cursor, text);
    keep_front(pushed, kept, text)
}

/// Appends the word of the form, and the step and its block.
fn push_front(
    form: Form,
    step: Step,
    block: RefView<'_>,
    text: &mut Vec<u8>,
) -> Result<(), AllocError>
    ensures ok { OnOk result (text.new.items ≡ text.old.items ++ (form_word form
        ++ each_after 58 (decimal (number_as step) ∷ decimal block.entry.num ∷ block.entry.id.now ∷ []))) }
    ensures err { OnErr result (text.new.items ≡ text.old.items) }
{
    let parts = [
        Part::Text(form.word()),
        Part::Text(b":"),
        Part::Number(step_number(step)),
        Part::Text(b":"),
        Part::Number(block.num),
        Part::Text(b":"),
        Part::Text(block.id),
    ];
    push_parts(parts.as_slice(), text)
}

/// Appends the place, as the form writes it, and the tail.
fn push_rest(form: Form, cursor: CursorView<'_>, text: &mut Vec<u8>) -> Result<(), AllocError>
    ensures ok { OnOk result (text.new.items ≡ text.old.items ++ (each_after 58
        (place_words form (option_map ref_seen cursor.entry.end) (option_map ref_seen cursor.entry.lib))
        ++ each_after 47 (tail_parts cursor.entry.tail))) }
    ensures err { OnErr result (text.new.items ≡ text.old.items) }
{
    let kept = text.len();
    push_place(form, cursor.end, cursor.lib, text)?;
    let pushed = push_tail(cursor.tail, text);
    keep_front(pushed, kept, text)
}

/// Appends the blocks of the place that the form writes.
fn push_place(
    form: Form,
    end: Option<RefView<'_>>,
    lib: Option<RefView<'_>>,
    text: &mut Vec<u8>,
) -> Result<(), AllocError>
    ensures ok { OnOk result (text.new.items ≡ text.old.items ++ each_after 58
        (place_words form (option_map ref_seen end.entry) (option_map ref_seen lib.entry))) }
    ensures err { OnErr result (text.new.items ≡ text.old.items) }
{
    match form {
        Form::AtEnd => push_pair(lib, text),
        Form::AtLib => push_pair(end, text),
        Form::Apart => push_pairs(end, lib, text),
    }
}

/// Appends the end and the lib.
fn push_pairs(
    end: Option<RefView<'_>>,
    lib: Option<RefView<'_>>,
    text: &mut Vec<u8>,
) -> Result<(), AllocError>
    ensures ok { OnOk result (text.new.items ≡ text.old.items ++ each_after 58
        (pair_words (option_map ref_seen end.entry) ++ pair_words (option_map ref_seen lib.entry))) }
    ensures err { OnErr result (text.new.items ≡ text.old.items) }
{
    let kept = text.len();
    push_pair(end, text)?;
    let pushed = push_pair(lib, text);
    keep_front(pushed, kept, text)
}

/// Appends a block that may be missing.
fn push_pair(block: Option<RefView<'_>>, text: &mut Vec<u8>) -> Result<(), AllocError>
    ensures ok { OnOk result (text.new.items ≡ text.old.items
        ++ each_after 58 (pair_words (option_map ref_seen block.entry))) }
    ensures err { OnErr result (text.new.items ≡ text.old.items) }
{
    match block {
        Some(r) => push_ref(r, text),
        None => text.extend_from_slice(b":0:-"),
    }
}

/// Appends a block by number and id.
fn push_ref(block: RefView<'_>, text: &mut Vec<u8>) -> Result<(), AllocError>
    ensures ok { OnOk result (text.new.items ≡ text.old.items
        ++ each_after 58 (decimal block.entry.num ∷ block.entry.id.now ∷ [])) }
    ensures err { OnErr result (text.new.items ≡ text.old.items) }
{
    let parts = [
        Part::Text(b":"),
        Part::Number(block.num),
        Part::Text(b":"),
        Part::Text(block.id),
    ];
    push_parts(parts.as_slice(), text)
}

/// Appends the run and what was seen, where there is a tail.
fn push_tail(tail: Option<Tail>, text: &mut Vec<u8>) -> Result<(), AllocError>
    ensures ok { OnOk result
        (text.new.items ≡ text.old.items ++ each_after 47 (tail_parts tail)) }
    ensures err { OnErr result (text.new.items ≡ text.old.items) }
{
    match tail {
        Some(Tail { run, seen }) => push_numbers(run, seen, text),
        None => Ok(()),
    }
}

/// Appends the numbers of a tail.
fn push_numbers(run: u64, seen: u64, text: &mut Vec<u8>) -> Result<(), AllocError>
    ensures ok { OnOk result
        (text.new.items ≡ text.old.items ++ each_after 47 (decimal run ∷ decimal seen ∷ [])) }
    ensures err { OnErr result (text.new.items ≡ text.old.items) }
{
    let parts = [
        Part::Text(b"/"),
        Part::Number(run),
        Part::Text(b"/"),
        Part::Number(seen),
    ];
    push_parts(parts.as_slice(), text)
}

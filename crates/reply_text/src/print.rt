//! The lines of a session, appended to a text. At an error the text is as it was.

ghost use Rattle.std.specs.Prelude.{◌≡◌, ◌++◌, ◌∷◌, [], codes, OnOk, OnErr};
ghost use Rattle.std.specs.Fmt.{decimal};
ghost use Rattle.std.specs.List.{concat};
ghost use Rattle.std.specs.Option.{option_copied};
ghost use Rattle.step_cursor.specs.CursorText.{cursor_text};
ghost use Rattle.reply_text.specs.Lines.{cursor_after, open_line, step_front, step_line, head_line, end_line, error_line};
ghost use Rattle.reply_text.specs.declared.errors.ErrorLine.TheVariants as fault;

use crate::errors::ErrorLine;
use crate::pieces::{Piece, push_pieces};
use crate::words::{misfit_word, request_word};
use block_record::{Block, BlockRef, Id, TypeName};
use chain_model::{Place, Step};
use outer_world::FileName;
use std::alloc::AllocError;
use step_cursor::{CursorView, RefView, Tail, push_cursor};
use step_text::word;
use text_parts::{Part, keep_front, push_parts};

/// Appends the first line of a session.
pub fn print_open<'a>(
    block_type: &'a TypeName,
    run: u64,
    place: &'a Place,
    out: &mut Vec<u8>,
) -> Result<(), AllocError>
    ensures ok { OnOk result
        (out.new.items ≡ out.old.items ++ open_line block_type.now run place.now) }
    ensures err { OnErr result (out.new.items ≡ out.old.items) }
{
    let pieces = [
        Piece::Plain(Part::Text(b"{\"open\":\"")),
        Piece::Plain(Part::Escaped(block_type.as_bytes())),
        Piece::Plain(Part::Text(b"\",\"run\":")),
        Piece::Plain(Part::Number(run)),
        Piece::Plain(Part::Text(b",\"end\":")),
        Piece::Ref(place.end.as_ref()),
        Piece::Plain(Part::Text(b",\"lib\":")),
        Piece::Ref(place.lib.as_ref()),
        Piece::Plain(Part::Text(b"}\n")),
    ];
    push_pieces(pieces.as_slice(), out)
}

/// Appends the line of a step, with the place after it.
pub fn print_step(
    step: Step,
    block: &Block,
    place: &Place,
    tail: &Tail,
    out: &mut Vec<u8>,
) -> Result<(), AllocError>
    ensures ok { OnOk result
        (out.new.items ≡ out.old.items ++ step_line step block.now place.now tail.now) }
    ensures err { OnErr result (out.new.items ≡ out.old.items) }
{
    let kept = out.len();
    push_step(step, block, out)?;
    let pushed = push_place(step, block, place, *tail, out);
    keep_front(pushed, kept, out)
}

/// Appends the line of a step up to its cursor.
fn push_step(step: Step, block: &Block, out: &mut Vec<u8>) -> Result<(), AllocError>
    ensures ok { OnOk result (out.new.items ≡ out.old.items ++ step_front step block.now) }
    ensures err { OnErr result (out.new.items ≡ out.old.items) }
{
    let parts = [
        Part::Text(b"{\"step\":\""),
        Part::Text(word(step)),
        Part::Text(b"\",\"num\":"),
        Part::Number(block.num),
        Part::Text(b",\"id\":\""),
        Part::Text(block.id.as_bytes()),
        Part::Text(b"\",\"parent_num\":"),
        Part::Number(block.parent_num),
        Part::Text(b",\"parent_id\":\""),
        Part::Text(block.parent_id.as_bytes()),
        Part::Text(b"\",\"lib_num\":"),
        Part::Number(block.lib_num),
        Part::Text(b",\"time\":"),
        Part::Number(block.time),
        Part::Text(b",\"payload\":\""),
        Part::Base64(block.payload.as_bytes()),
        Part::Text(b"\",\"digest\":\""),
        Part::Hex(&block.digest),
        Part::Text(b"\",\"cursor\":\""),
    ];
    push_parts(parts.as_slice(), out)?;
    Ok(())
}

/// Appends the cursor after a step, and the end of its line.
fn push_place(
    step: Step,
    block: &Block,
    place: &Place,
    tail: Tail,
    out: &mut Vec<u8>,
) -> Result<(), AllocError>
    ensures ok { OnOk result (out.new.items ≡ out.old.items
        ++ (cursor_text (cursor_after step block.now place.now tail) ++ codes "\"}\n")) }
    ensures err { OnErr result (out.new.items ≡ out.old.items) }
{
    let kept = out.len();
    push_after(step, block, place, tail, out)?;
    let pushed = out.extend_from_slice(b"\"}\n");
    keep_front(pushed, kept, out)
}

/// Appends the cursor after a step.
fn push_after<'a>(
    step: Step,
    block: &'a Block,
    place: &'a Place,
    tail: Tail,
    out: &mut Vec<u8>,
) -> Result<(), AllocError>
    ensures ok { OnOk result (out.new.items ≡ out.old.items
        ++ cursor_text (cursor_after step block.now place.now tail)) }
    ensures err { OnErr result (out.new.items ≡ out.old.items) }
{
    let cursor = CursorView {
        step,
        block: RefView::with(block.num, &block.id),
        end: RefView::of_any(place.end.as_ref()),
        lib: RefView::of_any(place.lib.as_ref()),
        tail: Some(tail),
    };
    push_cursor(cursor, out)
}

/// Appends the line that ends a batch.
pub fn print_head(block: Option<&BlockRef>, seen: u64, out: &mut Vec<u8>) -> Result<(), AllocError>
    ensures ok { OnOk result
        (out.new.items ≡ out.old.items ++ head_line (option_copied block.entry) seen) }
    ensures err { OnErr result (out.new.items ≡ out.old.items) }
{
    let pieces = [
        Piece::Plain(Part::Text(b"{\"head\":")),
        Piece::Ref(block),
        Piece::Plain(Part::Text(b",\"seen\":")),
        Piece::Plain(Part::Number(seen)),
        Piece::Plain(Part::Text(b"}\n")),
    ];
    push_pieces(pieces.as_slice(), out)
}

/// Appends the line that ends a session.
pub fn print_end(done: bool, out: &mut Vec<u8>) -> Result<(), AllocError>
    ensures ok { OnOk result (out.new.items ≡ out.old.items ++ end_line done) }
    ensures err { OnErr result (out.new.items ≡ out.old.items) }
{
    if done {
        out.extend_from_slice(b"{\"end\":\"done\"}\n")
    } else {
        out.extend_from_slice(b"{\"end\":\"closing\"}\n")
    }
}

/// Appends the line that says why a session was refused or broke off.
pub fn print_error(line: &ErrorLine, out: &mut Vec<u8>) -> Result<(), AllocError>
    ensures ok { OnOk result (out.new.items ≡ out.old.items ++ error_line line.now) }
    ensures err { OnErr result (out.new.items ≡ out.old.items) }
{
    match line {
        ErrorLine::BadRequest { field } => push_word(
            b"{\"error\":\"bad_request\",\"field\":\"",
            request_word(*field),
            out,
        ),
        ErrorLine::TooLong => out.extend_from_slice(b"{\"error\":\"too_long\"}\n"),
        ErrorLine::Malformed { at } => {
            push_number(b"{\"error\":\"malformed\",\"at\":", u64::from(*at), out)
        }
        ErrorLine::Unknown { id } => {
            push_word(b"{\"error\":\"unknown\",\"id\":\"", id.as_bytes(), out)
        }
        ErrorLine::Misfit { field } => push_word(
            b"{\"error\":\"misfit\",\"field\":\"",
            misfit_word(*field),
            out,
        ),
        ErrorLine::StopBelow { end } => {
            push_number(b"{\"error\":\"stop_below\",\"end\":", *end, out)
        }
        ErrorLine::ShelfFault => out.extend_from_slice(b"{\"error\":\"shelf\"}\n"),
        ErrorLine::ShelfBad { name, at } => push_bad_file(name, *at, out),
        ErrorLine::Missing { name } => push_missing(name, out),
        ErrorLine::StoredOther { num, id } => push_other(*num, id, out),
        ErrorLine::Spent => out.extend_from_slice(b"{\"error\":\"spent\"}\n"),
        ErrorLine::Mem => out.extend_from_slice(b"{\"error\":\"memory\"}\n"),
    }
}

/// Appends a line whose last member is a word.
fn push_word<'a>(front: &'a [u8], word: &'a [u8], out: &mut Vec<u8>) -> Result<(), AllocError>
    ensures ok { OnOk result (out.new.items ≡ out.old.items
        ++ concat (front.now ∷ word.now ∷ codes "\"}\n" ∷ [])) }
    ensures err { OnErr result (out.new.items ≡ out.old.items) }
{
    let parts = [Part::Text(front), Part::Text(word), Part::Text(b"\"}\n")];
    push_parts(parts.as_slice(), out)
}

/// Appends a line whose last member is a number.
fn push_number(front: &[u8], number: u64, out: &mut Vec<u8>) -> Result<(), AllocError>
    ensures ok { OnOk result (out.new.items ≡ out.old.items
        ++ concat (front.now ∷ decimal number ∷ codes "}\n" ∷ [])) }
    ensures err { OnErr result (out.new.items ≡ out.old.items) }
{
    let parts = [Part::Text(front), Part::Number(number), Part::Text(b"}\n")];
    push_parts(parts.as_slice(), out)
}

fn push_bad_file(name: &FileName, at: u64, out: &mut Vec<u8>) -> Result<(), AllocError>
    ensures ok { OnOk result
        (out.new.items ≡ out.old.items ++ error_line (fault.ShelfBad name.now at)) }
    ensures err { OnErr result (out.new.items ≡ out.old.items) }
{
    let parts = [
        Part::Text(b"{\"error\":\"shelf_bad\",\"name\":\""),
        Part::Escaped(name.as_bytes()),
        Part::Text(b"\",\"at\":"),
        Part::Number(at),
        Part::Text(b"}\n"),
    ];
    push_parts(parts.as_slice(), out)
}

fn push_missing(name: &FileName, out: &mut Vec<u8>) -> Result<(), AllocError>
    ensures ok { OnOk result
        (out.new.items ≡ out.old.items ++ error_line (fault.Missing name.now)) }
    ensures err { OnErr result (out.new.items ≡ out.old.items) }
{
    let parts = [
        Part::Text(b"{\"error\":\"missing\",\"name\":\""),
        Part::Escaped(name.as_bytes()),
        Part::Text(b"\"}\n"),
    ];
    push_parts(parts.as_slice(), out)
}

fn push_other(num: u64, id: &Id, out: &mut Vec<u8>) -> Result<(), AllocError>
    ensures ok { OnOk result
        (out.new.items ≡ out.old.items ++ error_line (fault.StoredOther num id.now)) }
    ensures err { OnErr result (out.new.items ≡ out.old.items) }
{
    let parts = [
        Part::Text(b"{\"error\":\"stored_other\",\"num\":"),
        Part::Number(num),
        Part::Text(b",\"id\":\""),
        Part::Text(id.as_bytes()),
        Part::Text(b"\"}\n"),
    ];
    push_parts(parts.as_slice(), out)
}

//! Cursors from their text.

ghost use Rattle.std.specs.Prelude.{◌≡◌, ◌==◌, IfOk, IfErr, Ok};
ghost use Rattle.std.specs.List.{slice_split};
ghost use Rattle.base64.specs.GeneralPurpose.{decode_of, IsBytes};
ghost use Rattle.base64.specs.Engines.{url_safe_no_pad};
ghost use Rattle.step_cursor.specs.declared.cursor.Cursor.{Cursor};
ghost use Rattle.step_cursor.specs.CursorText.{cursor_text, IsPrintable};
ghost use Rattle.step_cursor.specs.CursorParts.{cursor_fault, parts as parts_of, words as words_of};
ghost use Rattle.step_cursor.specs.Reading.{seen as texts, cursor_of, answer, IsNoText, UnlessMem, place_named};

use crate::cursor::{Cursor, CursorFault};
use crate::read::{front, read_cursor};
use base64::DecodeAllocError;
use base64::engine::general_purpose::URL_SAFE_NO_PAD;
use std::alloc::{AllocError, Global};

/// The cursor whose text this is. A text of no cursor is refused at its first bad part.
pub fn parse_cursor(alloc: Global, text: &[u8]) -> Result<Cursor, CursorFault>
    ensures spelled { IfOk result (λ cursor. text.now ≡ cursor_text cursor) }
    ensures printable { IfOk result (λ cursor. IsPrintable cursor) }
    ensures reads { (c : Cursor) → IsPrintable c → text.now ≡ cursor_text c
        → UnlessMem result (result ≡ Ok c) }
    ensures fault { UnlessMem result (place_named result ≡ cursor_fault text.now) }
{
    let plain = decode(alloc, text)?;
    let cursor = read_plain(alloc, plain.as_slice())?;
    Ok(cursor)
}

/// The plain text that a text in base64url without padding spells.
fn decode(alloc: Global, text: &[u8]) -> Result<Vec<u8>, CursorFault>
    ensures decoded { IfOk result (λ plain. decode_of url_safe_no_pad text.now ≡ Ok plain.items) }
    ensures bytes { IfOk result (λ plain. IsBytes plain.items) }
    ensures fault { IfErr result (λ fault. IsNoText fault (decode_of url_safe_no_pad text.now)) }
{
    match URL_SAFE_NO_PAD.decode(alloc, text) {
        Ok(plain) => Ok(plain),
        Err(DecodeAllocError::DecodeError(_)) => Err(CursorFault::Malformed { at: 0 }),
        Err(DecodeAllocError::OutOfMemory) => Err(CursorFault::Mem),
    }
}

/// The cursor that a plain text is.
fn read_plain(alloc: Global, plain: &[u8]) -> Result<Cursor, CursorFault>
    ensures { UnlessMem result
        (result ≡ answer (cursor_of (words_of (parts_of plain.now)) (parts_of plain.now))) }
{
    let parts = split(alloc, plain, b'/')?;
    let words = split(alloc, front(parts.as_slice()), b':')?;
    match read_cursor(words.as_slice(), parts.as_slice()) {
        Ok(read) => {
            let cursor = read.to_cursor(alloc)?;
            Ok(cursor)
        }
        Err(at) => Err(CursorFault::Malformed { at }),
    }
}

/// The parts of a text between the separators.
fn split(alloc: Global, text: &[u8], separator: u8) -> Result<Vec<&[u8]>, AllocError>
    ensures { IfOk result
        (λ found. texts found.items ≡ slice_split (λ b. b == separator) text.now) }
{
    text.split(|b| *b == separator).collect(alloc)
}

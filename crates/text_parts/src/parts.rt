//! The parts of a text.

ghost use Rattle.std.specs.Prelude.{◌≡◌, ◌++◌, OnOk, OnErr};
ghost use Rattle.base64.specs.Engines.{standard};
ghost use Rattle.base64.specs.GeneralPurpose.{encode_of};
ghost use Rattle.hex.specs.Hex.{encode_lower};
ghost use Rattle.text_parts.specs.Parts.{part_text, parts_text};

use crate::encode::push_base64;
use crate::escape::push_escaped;
use base64::engine::general_purpose::STANDARD;
use itoa::Buffer;
use std::alloc::AllocError;

/// A part of a text.
#[derive(Clone, Copy)]
pub enum Part<'a> {
    /// These bytes.
    Text(&'a [u8]),
    /// A number, in decimal.
    Number(u64),
    /// These bytes as they stand between the quotes of a JSON text.
    Escaped(&'a [u8]),
    /// These bytes in base64 of the standard alphabet, padded.
    Base64(&'a [u8]),
    /// A digest, in lower-case hexadecimal digits.
    Hex(&'a [u8; 32]),
}

/// Appends the parts, one after another. Without memory the text stays as it is.
pub fn push_parts(parts: &[Part<'_>], text: &mut Vec<u8>) -> Result<(), AllocError>
    ensures ok { OnOk result (text.new.items ≡ text.old.items ++ parts_text parts.now) }
    ensures err { OnErr result (text.new.items ≡ text.old.items) }
{
    let kept = text.len();
    for part in parts {
        if push_part(*part, text).is_err() {
            text.truncate(kept);
            return Err(AllocError);
        }
    }
    Ok(())
}

/// Appends one part. Without memory the text stays as it is.
pub fn push_part(part: Part<'_>, text: &mut Vec<u8>) -> Result<(), AllocError>
    ensures ok { OnOk result (text.new.items ≡ text.old.items ++ part_text part.entry) }
    ensures err { OnErr result (text.new.items ≡ text.old.items) }
{
    match part {
        Part::Text(bytes) => text.extend_from_slice(bytes),
        Part::Number(number) => {
            let mut digits = Buffer::new();
            text.extend_from_slice(digits.format(number).as_bytes())
        }
        Part::Escaped(bytes) => push_escaped(bytes, text),
        Part::Base64(bytes) => push_standard(bytes, text),
        Part::Hex(digest) => text.extend_from_slice(hex_of(digest).as_slice()),
    }
}

/// Appends the bytes in base64 of the standard alphabet, padded. It stands apart since the engine's
/// tables are made anew in each call that names it.
#[inline(never)]
fn push_standard(bytes: &[u8], text: &mut Vec<u8>) -> Result<(), AllocError>
    ensures ok { OnOk result (text.new.items ≡ text.old.items ++ encode_of standard bytes.now) }
    ensures err { OnErr result (text.new.items ≡ text.old.items) }
{
    push_base64(&STANDARD, bytes, text)
}

/// A digest in lower-case hexadecimal digits.
fn hex_of(digest: &[u8; 32]) -> [u8; 64]
    ensures { result ≡ encode_lower digest.now }
{
    let mut text = [0; 64];
    let _ = hex::encode_to_slice(digest.as_slice(), &mut text);
    text
}

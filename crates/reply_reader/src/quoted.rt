//! Texts between quotes, as JSON escapes them.

ghost use Rattle.std.specs.Prelude.{◌≡◌, ◌∷◌, []};
ghost use Rattle.std.specs.Option.{option_map};
ghost use Rattle.hex.specs.Hex.{encode_lower};
ghost use Rattle.text_parts.specs.Parts.{is_apart as has_escape};
ghost use Rattle.reply_reader.specs.Parts.{digit_value as value_of_digit, control_of, after_u as u_left, after_slash as slash_left, byte_at as byte_as, quoted as quoted_as};
ghost use Rattle.reply_reader.specs.Reading.{Gives};

use crate::parts::after_front;
use crate::replies::ReplyFault;
use std::alloc::Global;

/// The value of a hexadecimal digit, or 0.
fn digit_value(digit: u8) -> u8
    ensures { result ≡ value_of_digit digit }
{
    if b'a' <= digit && digit <= b'f' {
        digit - 87
    } else if b'0' <= digit && digit <= b'9' {
        digit - 48
    } else {
        0
    }
}

/// The two digits of a byte.
fn digits_of(byte: u8) -> [u8; 2]
    ensures { result ≡ encode_lower (byte ∷ []) }
{
    let mut digits = [0; 2];
    let _ = hex::encode_to_slice([byte].as_slice(), &mut digits);
    digits
}

/// The byte below 32 whose two digits these are.
fn control<'a>(high: u8, low: u8, rest: &'a [u8]) -> Option<(u8, &'a [u8])>
    ensures { option_map (λ x. (x.0, x.1.now)) result ≡ control_of high low rest.now }
{
    let byte = digit_value(high) * 16 + digit_value(low);
    if byte < 32 && digits_of(byte).as_slice() == [high, low].as_slice() {
        Some((byte, rest))
    } else {
        None
    }
}

/// The byte whose escape has this after `\u`.
fn after_u(text: &[u8]) -> Option<(u8, &[u8])>
    ensures { option_map (λ x. (x.0, x.1.now)) result ≡ u_left text.now }
{
    match text {
        [first, second, high, low, rest @ ..] => {
            if *first == b'0' && *second == b'0' {
                control(*high, *low, rest)
            } else {
                None
            }
        }
        _ => None,
    }
}

/// The byte whose escape has this after its backslash.
fn after_slash(text: &[u8]) -> Option<(u8, &[u8])>
    ensures { option_map (λ x. (x.0, x.1.now)) result ≡ slash_left text.now }
{
    match text {
        [byte, rest @ ..] => {
            if *byte == b'"' || *byte == b'\\' {
                Some((*byte, rest))
            } else if *byte == b'u' {
                after_u(rest)
            } else {
                None
            }
        }
        _ => None,
    }
}

/// Whether a byte has an escape.
fn is_apart(byte: u8) -> bool
    ensures { result ≡ has_escape byte }
{
    byte == b'"' || byte == b'\\' || byte < 32
}

/// The byte whose escaped form stands at the front.
fn byte_at(text: &[u8]) -> Option<(u8, &[u8])>
    ensures { option_map (λ x. (x.0, x.1.now)) result ≡ byte_as text.now }
{
    match text {
        [byte, rest @ ..] => {
            if *byte == b'\\' {
                after_slash(rest)
            } else if is_apart(*byte) {
                None
            } else {
                Some((*byte, rest))
            }
        }
        _ => None,
    }
}

/// The bytes whose escaped form, with a quote after it, stands at the front.
pub fn quoted(alloc: Global, text: &[u8]) -> Result<(Vec<u8>, &[u8]), ReplyFault>
    ensures { Gives (λ x. (x.0.items, x.1.now)) result (quoted_as text.now) }
{
    let mut bytes = Vec::new(alloc);
    let mut left = text;
    for _ in 0..text.len() {
        if let Some(rest) = after_front(b"\"".as_slice(), left) {
            return Ok((bytes, rest));
        }
        let Some((byte, rest)) = byte_at(left) else {
            return Err(ReplyFault::BadReply);
        };
        bytes.push(byte)?;
        left = rest;
    }
    Err(ReplyFault::BadReply)
}

//! Texts as they stand between the quotes of a JSON text.

ghost use Rattle.std.specs.Prelude.{◌≡◌, ◌∷◌, [], ◌++◌, codes, false, OnOk, OnErr};
ghost use Rattle.std.specs.List.{list_any};
ghost use Rattle.hex.specs.Hex.{encode_lower};
ghost use Rattle.text_parts.specs.Parts.{escaped, escaped_byte, is_apart};

use crate::cut::keep_front;
use std::alloc::AllocError;

/// Appends the bytes, with an escape for each quote, each backslash and each byte below 32.
pub fn push_escaped(bytes: &[u8], text: &mut Vec<u8>) -> Result<(), AllocError>
    ensures ok { OnOk result (text.new.items ≡ text.old.items ++ escaped bytes.now) }
    ensures err { OnErr result (text.new.items ≡ text.old.items) }
{
    if has_escapes(bytes) {
        push_each(bytes, text)
    } else {
        push_plain(bytes, text)
    }
}

/// Whether one of the bytes stands with an escape.
fn has_escapes(bytes: &[u8]) -> bool
    ensures { result ≡ list_any is_apart bytes.now }
{
    bytes.iter().any(|byte| is_escaped(*byte))
}

/// Appends bytes none of which has an escape.
fn push_plain(bytes: &[u8], text: &mut Vec<u8>) -> Result<(), AllocError>
    requires { list_any is_apart bytes.now ≡ false }
    ensures ok { OnOk result (text.new.items ≡ text.old.items ++ escaped bytes.now) }
    ensures err { OnErr result (text.new.items ≡ text.old.items) }
{
    text.extend_from_slice(bytes)?;
    Ok(())
}

/// Whether a byte stands with an escape.
fn is_escaped(byte: u8) -> bool
    ensures { result ≡ is_apart byte }
{
    byte == b'"' || byte == b'\\' || byte < 32
}

/// Appends the bytes one by one, each as it stands.
fn push_each(bytes: &[u8], text: &mut Vec<u8>) -> Result<(), AllocError>
    ensures ok { OnOk result (text.new.items ≡ text.old.items ++ escaped bytes.now) }
    ensures err { OnErr result (text.new.items ≡ text.old.items) }
{
    let kept = text.len();
    for byte in bytes {
        if push_byte(*byte, text).is_err() {
            text.truncate(kept);
            return Err(AllocError);
        }
    }
    Ok(())
}

fn push_byte(byte: u8, text: &mut Vec<u8>) -> Result<(), AllocError>
    ensures ok { OnOk result (text.new.items ≡ text.old.items ++ escaped_byte byte) }
    ensures err { OnErr result (text.new.items ≡ text.old.items) }
{
    if byte == b'"' || byte == b'\\' {
        text.extend_from_slice(&[b'\\', byte])
    } else if byte < 32 {
        push_control(byte, text)
    } else {
        text.extend_from_slice(&[byte])
    }
}

fn push_control(byte: u8, text: &mut Vec<u8>) -> Result<(), AllocError>
    ensures ok { OnOk result
        (text.new.items ≡ text.old.items ++ codes "\\u00" ++ encode_lower (byte ∷ [])) }
    ensures err { OnErr result (text.new.items ≡ text.old.items) }
{
    let kept = text.len();
    let digits = digits_of(byte);
    text.extend_from_slice(b"\\u00")?;
    let pushed = text.extend_from_slice(digits.as_slice());
    keep_front(pushed, kept, text)
}

/// A byte in two lower-case hexadecimal digits.
fn digits_of(byte: u8) -> [u8; 2]
    ensures { result ≡ encode_lower (byte ∷ []) }
{
    let mut digits = [0; 2];
    let _ = hex::encode_to_slice([byte].as_slice(), &mut digits);
    digits
}

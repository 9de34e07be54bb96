//! The messages of a container.

ghost use Rattle.std.specs.Prelude.{◌≡◌, ◌≤◌, ◌<◌, IfOk, length, Some, None, nat_lt, if◌then◌else◌, IsTrue};
ghost use Rattle.dbin_file.specs.Messages.{message_text, is_partial, IsBegun, message_length as length_of_message, missing as missing_of};

use std::alloc::{AllocError, Global};

/// The most bytes that a message has.
pub const MESSAGE_BYTES_MAX: usize = 50_001_024;

/// A message in a container: four bytes for its length, and its bytes.
pub fn message(alloc: Global, bytes: &[u8]) -> Result<Vec<u8>, AllocError>
    requires { length bytes.now ≤ 50_001_024 }
    ensures { IfOk result (λ text. text.items ≡ message_text bytes.now) }
{
    let mut text = Vec::new(alloc);
    text.extend_from_slice(&(bytes.len() as u32).to_be_bytes())?;
    text.extend_from_slice(bytes)?;
    Ok(text)
}

/// The length of the message that these bytes begin with, once it is there.
fn message_length(bytes: &[u8]) -> Option<u32>
    ensures { result ≡ (if nat_lt (length bytes.now) 4 then None
        else Some (length_of_message bytes.now)) }
{
    match bytes {
        [a, b, c, d, ..] => Some(u32::from_be_bytes([*a, *b, *c, *d])),
        _ => None,
    }
}

/// How many more bytes are wanted of the message that these begin: those of its length, and then
/// the others.
#[tactic(auto, unfolding(crate::specs::Messages::has_message))]
pub fn missing(bytes: &[u8]) -> usize
    requires { IsTrue (is_partial bytes.now) }
    ensures count { result ≡ missing_of bytes.now }
    ensures some { 0 < result }
{
    match message_length(bytes) {
        None => 4 - bytes.len(),
        Some(length) => 4 + length as usize - bytes.len(),
    }
}

/// What some bytes of a container are of the message that they begin.
#[derive(Clone, Copy)]
pub enum Begun {
    /// A part of it.
    Part,
    /// All of it.
    Whole,
    /// They have its length, which is greater than one has.
    TooLong(u32),
}

/// What these bytes are of the message that they begin.
#[tactic(auto, unfolding(crate::specs::Messages::has_message, crate::specs::Messages::is_too_long))]
pub fn message_begun(bytes: &[u8]) -> Begun
    ensures { IsBegun bytes.now result }
{
    match message_length(bytes) {
        None => Begun::Part,
        Some(length) if length as usize > MESSAGE_BYTES_MAX => Begun::TooLong(length),
        Some(length) if bytes.len() < 4 + length as usize => Begun::Part,
        Some(_) => Begun::Whole,
    }
}

//! What clients are sent, appended to a text. Without memory the text stays as it is.

ghost use Rattle.std.specs.Prelude.{◌≡◌, ◌<◌, ◌++◌, codes, length, OnOk, OnErr};
ghost use Rattle.replay_text.specs.Lines.{not_yet_line, over_line};
ghost use Rattle.replay_text.specs.Replies.{BeginsWithLine, client_lines};

use crate::parts::push_number;
use memchr::memchr;
use std::alloc::AllocError;
use text_parts::{Part, push_parts};

/// Appends the lines of a text that a client is sent, each with the client's name and a space
/// before it.
pub fn push_replies(client: &[u8], text: &[u8], out: &mut Vec<u8>) -> Result<(), AllocError>
    ensures ok { OnOk result (out.new.items ≡ out.old.items ++ client_lines client.now text.now) }
    ensures err { OnErr result (out.new.items ≡ out.old.items) }
{
    let kept = out.len();
    let mut rest = text;
    while !rest.is_empty() {
        let (line, next) = cut_line(rest);
        if push_line(client, line, out).is_err() {
            out.truncate(kept);
            return Err(AllocError);
        }
        rest = next;
    }
    Ok(())
}

/// The first line of a text, with its LF where it has one, and what follows it.
fn cut_line(text: &[u8]) -> (&[u8], &[u8])
    requires { 0 < length text.now }
    ensures line { BeginsWithLine text.now result.0.now result.1.now }
    ensures shorter { length result.1.now < length text.now }
{
    match memchr(b'\n', text) {
        Some(at) => (&text[..at + 1], &text[at + 1..]),
        None => (text, &[]),
    }
}

/// Appends a line with the client's name and a space before it.
fn push_line<'a>(client: &'a [u8], line: &'a [u8], out: &mut Vec<u8>) -> Result<(), AllocError>
    ensures ok { OnOk result
        (out.new.items ≡ out.old.items ++ (client.now ++ codes " ") ++ line.now) }
    ensures err { OnErr result (out.new.items ≡ out.old.items) }
{
    let parts = [Part::Text(client), Part::Text(b" "), Part::Text(line)];
    push_parts(parts.as_slice(), out)
}

/// Appends the line of a client for which a history of so many blocks has nothing yet.
pub fn push_not_yet(client: &[u8], len: u64, out: &mut Vec<u8>) -> Result<(), AllocError>
    ensures ok { OnOk result (out.new.items ≡ out.old.items ++ not_yet_line client.now len) }
    ensures err { OnErr result (out.new.items ≡ out.old.items) }
{
    push_number(client, b" notyet ", len, out)
}

/// Appends the line of a reader or a client that is over.
pub fn push_over(name: &[u8], out: &mut Vec<u8>) -> Result<(), AllocError>
    ensures ok { OnOk result (out.new.items ≡ out.old.items ++ over_line name.now) }
    ensures err { OnErr result (out.new.items ≡ out.old.items) }
{
    let parts = [Part::Text(name), Part::Text(b" over\n")];
    push_parts(parts.as_slice(), out)
}

//! Lines and words, cut from a text.

ghost use Rattle.std.specs.Prelude.{◌≡◌, ◌<◌, ◌++◌, IfSome, IsTrue, length, drop, slice_get};
ghost use Rattle.std.specs.Option.{option_copied};
ghost use Rattle.fire_lines.specs.Line.{may_be_fire, is_too_long};
ghost use Rattle.fire_lines.specs.Parts.{SplitsFirst, words, words_left, without_cr as cut_cr};

use memchr::memchr;

/// What stands before the first separator, and what follows it.
pub fn split_once(text: &[u8], separator: u8) -> Option<(&[u8], &[u8])>
    ensures parts { SplitsFirst separator text.now result }
    ensures shorter { IfSome result (λ cut. length cut.1.now < length text.now) }
{
    let at = memchr(separator, text)?;
    Some((&text[..at], &text[at + 1..]))
}

/// The line without the one CR at its end, where there is one.
pub fn without_cr(line: &[u8]) -> &[u8]
    ensures { result.now ≡ cut_cr line.now }
{
    match line {
        [front @ .., b'\r'] => front,
        _ => line,
    }
}

/// The words of a line that are left, between single spaces.
#[derive(Drop)]
pub struct Words<'a> {
    pub left: Option<&'a [u8]>,
}

impl<'a> Words<'a> {
    /// The words of a text. An empty text is one empty word.
    pub fn new(text: &'a [u8]) -> Words<'a>
        ensures { words_left result ≡ words text.now }
    {
        Words { left: Some(text) }
    }

    /// The first of the words that are left.
    pub fn next_word(&mut self) -> Option<&'a [u8]>
        ensures word { option_copied result ≡ slice_get (words_left self.old) 0 }
        ensures rest { words_left self.new ≡ drop 1 (words_left self.old) }
    {
        let text = self.left?;
        match split_once(text, b' ') {
            Some((word, rest)) => {
                self.left = Some(rest);
                Some(word)
            }
            None => {
                self.left = None;
                Some(text)
            }
        }
    }
}

/// Whether a line that begins with these bytes, which may be for the reader, may still be with the
/// further bytes.
pub fn goes_on(kept: &[u8], bytes: &[u8]) -> bool
    requires { IsTrue (may_be_fire kept.now) }
    ensures { result ≡ may_be_fire (kept.now ++ bytes.now) }
{
    let fire = b"FIRE ".as_slice();
    if kept.len() >= fire.len() {
        return true;
    }
    let wanted = &fire[kept.len()..];
    let count = wanted.len().min(bytes.len());
    bytes[..count] == wanted[..count]
}

/// Whether the line of these bytes, which may be for the reader, is for the reader and has more
/// bytes than the limit, a last CR not counted.
pub fn is_long(max: usize, kept: &[u8], bytes: &[u8]) -> bool
    requires { IsTrue (may_be_fire (kept.now ++ bytes.now)) }
    ensures { result ≡ is_too_long max (cut_cr (kept.now ++ bytes.now)) }
{
    let count = count_without_cr(kept, bytes);
    count >= 5 && count > max
}

/// How many bytes the two have together, without the one CR at their end, where there is one.
fn count_without_cr(kept: &[u8], bytes: &[u8]) -> usize
    ensures { result ≡ length (cut_cr (kept.now ++ bytes.now)) }
{
    if bytes.is_empty() {
        without_cr(kept).len()
    } else {
        kept.len() + without_cr(bytes).len()
    }
}

//! Lines of a few parts, appended to a text. Without memory the text stays as it is.

ghost use Rattle.std.specs.Prelude.{◌≡◌, ◌++◌, ◌∷◌, [], codes, OnOk, OnErr};
ghost use Rattle.std.specs.Fmt.{decimal};
ghost use Rattle.replay_text.specs.Lines.{block_line};
ghost use Rattle.replay_text.specs.Texts.{line_of};

use block_record::Id;
use std::alloc::AllocError;
use text_parts::{Part, push_parts};

/// Appends the line of a name, words and a number.
pub fn push_number<'a>(
    name: &'a [u8],
    words: &'a [u8],
    number: u64,
    out: &mut Vec<u8>,
) -> Result<(), AllocError>
    ensures ok { OnOk result
        (out.new.items ≡ out.old.items ++ line_of (name.now ∷ words.now ∷ decimal number ∷ [])) }
    ensures err { OnErr result (out.new.items ≡ out.old.items) }
{
    let parts = [
        Part::Text(name),
        Part::Text(words),
        Part::Number(number),
        Part::Text(b"\n"),
    ];
    push_parts(parts.as_slice(), out)
}

/// Appends the line of a name, words and two numbers.
pub fn push_two<'a>(
    name: &'a [u8],
    words: &'a [u8],
    first: u64,
    second: u64,
    out: &mut Vec<u8>,
) -> Result<(), AllocError>
    ensures ok { OnOk result (out.new.items ≡ out.old.items
        ++ line_of (name.now ∷ words.now ∷ decimal first ∷ codes " " ∷ decimal second ∷ [])) }
    ensures err { OnErr result (out.new.items ≡ out.old.items) }
{
    let parts = [
        Part::Text(name),
        Part::Text(words),
        Part::Number(first),
        Part::Text(b" "),
        Part::Number(second),
        Part::Text(b"\n"),
    ];
    push_parts(parts.as_slice(), out)
}

/// Appends the line of a name, words and two texts.
pub fn push_texts<'a>(
    name: &'a [u8],
    words: &'a [u8],
    first: &'a [u8],
    second: &'a [u8],
    out: &mut Vec<u8>,
) -> Result<(), AllocError>
    ensures ok { OnOk result (out.new.items ≡ out.old.items
        ++ line_of (name.now ∷ words.now ∷ first.now ∷ codes " " ∷ second.now ∷ [])) }
    ensures err { OnErr result (out.new.items ≡ out.old.items) }
{
    let parts = [
        Part::Text(name),
        Part::Text(words),
        Part::Text(first),
        Part::Text(b" "),
        Part::Text(second),
        Part::Text(b"\n"),
    ];
    push_parts(parts.as_slice(), out)
}

/// Appends the line of a name, a word and a block.
pub fn push_block<'a>(
    name: &'a [u8],
    word: &'a [u8],
    num: u64,
    id: &'a Id,
    out: &mut Vec<u8>,
) -> Result<(), AllocError>
    ensures ok { OnOk result
        (out.new.items ≡ out.old.items ++ block_line name.now word.now num id.now) }
    ensures err { OnErr result (out.new.items ≡ out.old.items) }
{
    let parts = [
        Part::Text(name),
        Part::Text(word),
        Part::Number(num),
        Part::Text(b" "),
        Part::Text(id.as_bytes()),
        Part::Text(b"\n"),
    ];
    push_parts(parts.as_slice(), out)
}

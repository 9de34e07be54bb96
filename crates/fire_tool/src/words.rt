//! What the words of the command line name.

ghost use Rattle.std.specs.Prelude.{◌≡◌, map};
ghost use Rattle.std.specs.Option.{option_copied};
ghost use Rattle.fire_tool.specs.Words.{cursor_value as cursor_value_of, first_after as first_after_name, first_in as first_in_word, plain_value as plain_value_of, names_check, steps_first as steps_first_of, value_after as value_after_name, value_in as value_in_word};

use block_record::read_number;

/// Whether the words are `check` alone.
pub fn is_check(words: &[Vec<u8>]) -> bool
    ensures { result ≡ names_check (map (λ w. w.items) words.now) }
{
    match words {
        [command] => command.as_slice() == b"check".as_slice(),
        _ => false,
    }
}

/// The first number that is taken, where the words are `steps` alone or with the option `--first`.
pub fn steps_first(words: &[Vec<u8>]) -> Option<u64>
    ensures { result ≡ steps_first_of (map (λ w. w.items) words.now) }
{
    let [command, options @ ..] = words else {
        return None;
    };
    if command.as_slice() != b"steps".as_slice() {
        return None;
    }
    match options {
        [] => Some(0),
        [word] => first_in(word.as_slice()),
        [name, value] => first_after(name.as_slice(), value.as_slice()),
        _ => None,
    }
}

/// The number in the one word `--first=N`.
fn first_in(word: &[u8]) -> Option<u64>
    ensures { result ≡ first_in_word word.now }
{
    match word.strip_prefix(b"--first=".as_slice()) {
        Some(value) => read_number(value),
        None => None,
    }
}

/// The number in the two words `--first` and N.
fn first_after(name: &[u8], value: &[u8]) -> Option<u64>
    ensures { result ≡ first_after_name name.now value.now }
{
    if name == b"--first".as_slice() {
        read_number(value)
    } else {
        None
    }
}

/// The value of `--text`, where the words are `cursor` with this option and nothing else.
pub fn cursor_value(words: &[Vec<u8>]) -> Option<&[u8]>
    ensures { option_copied result ≡ cursor_value_of (map (λ w. w.items) words.now) }
{
    let [command, options @ ..] = words else {
        return None;
    };
    if command.as_slice() != b"cursor".as_slice() {
        return None;
    }
    match options {
        [word] => value_in(word.as_slice()),
        [name, value] => value_after(name.as_slice(), value.as_slice()),
        _ => None,
    }
}

/// The value in the one word `--text=VALUE`.
fn value_in(word: &[u8]) -> Option<&[u8]>
    ensures { option_copied result ≡ value_in_word word.now }
{
    match word.strip_prefix(b"--text=".as_slice()) {
        Some(value) => plain_value(value),
        None => None,
    }
}

/// The value in the two words `--text` and VALUE.
fn value_after<'a>(name: &[u8], value: &'a [u8]) -> Option<&'a [u8]>
    ensures { option_copied result ≡ value_after_name name.now value.now }
{
    if name == b"--text".as_slice() {
        plain_value(value)
    } else {
        None
    }
}

/// The value of an option, unless it is empty or begins with a dash.
fn plain_value(value: &[u8]) -> Option<&[u8]>
    ensures { option_copied result ≡ plain_value_of value.now }
{
    match value {
        [] | [b'-', ..] => None,
        _ => Some(value),
    }
}

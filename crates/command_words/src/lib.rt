//! The words of a command line, read as the options of a command.
#![tactic(auto)]

ghost use Rattle.std.specs.Prelude.{◌≡◌, ◌∷◌, ◌<◌, ◌≤◌, IfSome, length, map};
ghost use Rattle.std.specs.List.{position};
ghost use Rattle.std.specs.Option.{option_map};
ghost use Rattle.command_words.specs.Seen.{option_seen};
ghost use Rattle.command_words.specs.Options.{first_option as first_option_of, is_equals, is_value as is_value_of, option_at as option_at_of, option_of as option_of_words, option_of_two as option_of_two_words, with_rest as with_rest_of};

/// An option: its name without the dashes, and its value.
#[derive(Clone, Copy)]
pub struct GivenOption<'a> {
    pub name: &'a [u8],
    pub value: &'a [u8],
}

/// The first option of some words, as `--name=value` or as `--name` and the value, and the words
/// after it. None where there are no words, or they begin with no option.
pub fn first_option(words: &[Vec<u8>]) -> Option<(GivenOption<'_>, &[Vec<u8>])>
    ensures option { option_map (λ o. (option_seen o.0, map (λ w. w.items) o.1.now)) result
        ≡ first_option_of (map (λ w. w.items) words.now) }
    ensures shorter { IfSome result (λ o. length o.1.now < length words.now) }
{
    match words {
        [] => None,
        [word, rest @ ..] => option_in(word.as_slice(), rest),
    }
}

/// The option of a word, or of it and the next one.
fn option_in<'a>(word: &'a [u8], rest: &'a [Vec<u8>]) -> Option<(GivenOption<'a>, &'a [Vec<u8>])>
    ensures option { option_map (λ o. (option_seen o.0, map (λ w. w.items) o.1.now)) result
        ≡ first_option_of (word.now ∷ map (λ w. w.items) rest.now) }
    ensures shorter { IfSome result (λ o. length o.1.now ≤ length rest.now) }
{
    option_at(word, rest, equals_at(word))
}

/// The place of the sign between a name and its value in one word.
fn equals_at(word: &[u8]) -> Option<usize>
    ensures place { result ≡ position is_equals word.now }
    ensures within { IfSome result (λ at. at < length word.now) }
{
    word.iter().position(|byte| *byte == b'=')
}

/// The option of a word that has the sign at this place, and else of the word and the next one.
fn option_at<'a>(
    word: &'a [u8],
    rest: &'a [Vec<u8>],
    at: Option<usize>,
) -> Option<(GivenOption<'a>, &'a [Vec<u8>])>
    requires { IfSome at (λ n. n < length word.now) }
    ensures option { option_map (λ o. (option_seen o.0, map (λ w. w.items) o.1.now)) result
        ≡ option_at_of word.now (map (λ w. w.items) rest.now) at }
    ensures shorter { IfSome result (λ o. length o.1.now ≤ length rest.now) }
{
    match at {
        Some(at) => with_rest(rest, option_of(&word[..at], &word[at + 1..])),
        None => option_of_two(word, rest),
    }
}

/// The option of a word and the next one.
fn option_of_two<'a>(
    word: &'a [u8],
    rest: &'a [Vec<u8>],
) -> Option<(GivenOption<'a>, &'a [Vec<u8>])>
    ensures option { option_map (λ o. (option_seen o.0, map (λ w. w.items) o.1.now)) result
        ≡ option_of_two_words word.now (map (λ w. w.items) rest.now) }
    ensures shorter { IfSome result (λ o. length o.1.now ≤ length rest.now) }
{
    match rest {
        [] => None,
        [value, more @ ..] => with_rest(more, option_of(word, value.as_slice())),
    }
}

/// An option, and the words after it.
fn with_rest<'a>(
    rest: &'a [Vec<u8>],
    option: Option<GivenOption<'a>>,
) -> Option<(GivenOption<'a>, &'a [Vec<u8>])>
    ensures option { option_map (λ o. (option_seen o.0, map (λ w. w.items) o.1.now)) result
        ≡ with_rest_of (map (λ w. w.items) rest.now) (option_map option_seen option.entry) }
    ensures shorter { IfSome result (λ o. length o.1.now ≤ length rest.now) }
{
    let option = option?;
    Some((option, rest))
}

/// The option of a name with two dashes and a value.
fn option_of<'a>(name: &'a [u8], value: &'a [u8]) -> Option<GivenOption<'a>>
    ensures { option_map option_seen result ≡ option_of_words name.now value.now }
{
    let name = name.strip_prefix(b"--".as_slice())?;
    if is_value(value) {
        Some(GivenOption { name, value })
    } else {
        None
    }
}

/// Whether a value may be one of an option: it has a byte, and its first is no dash.
fn is_value(value: &[u8]) -> bool
    ensures { result ≡ is_value_of value.now }
{
    match value {
        [] | [b'-', ..] => false,
        _ => true,
    }
}

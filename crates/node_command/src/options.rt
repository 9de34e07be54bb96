//! What the words of the command ask for.

ghost use Rattle.std.specs.Prelude.{◌≡◌, ◌≤◌, IfSome, IsTrue, map};
ghost use Rattle.std.specs.Option.{option_and_then};
ghost use Rattle.command_words.specs.Options.{all_options};
ghost use Rattle.command_words.specs.Seen.{option_seen};
ghost use Rattle.block_record.specs.Number.{number_of};
ghost use Rattle.node_command.specs.NodeWords.{fits as fits_these, found_with, names_node as named_options, node_options as options_in, none_found, once as given_once, options_of};

use block_record::read_number;
use command_words::{GivenOption, first_option};

/// The key of the random sequence, how many blocks the main line has, and at about one of how many
/// numbers a fork stands beside it, or 0 for none.
#[derive(Clone, Copy)]
pub struct NodeOptions {
    pub key: u64,
    pub blocks: u64,
    pub forks: u64,
}

/// The options that were found so far.
#[derive(Clone, Copy)]
pub struct Found {
    pub key: Option<u64>,
    pub blocks: Option<u64>,
    pub forks: Option<u64>,
}

/// The options, where the words are `node` and its three options in any order.
pub fn names_node(words: &[Vec<u8>]) -> Option<NodeOptions>
    ensures options { result ≡ named_options (map (λ w. w.items) words.now) }
    ensures few { IfSome result (λ o. o.blocks ≤ 1_000_000) }
{
    let [command, options @ ..] = words else {
        return None;
    };
    if command.as_slice() == b"node".as_slice() {
        node_options(options)
    } else {
        None
    }
}

/// The options that some words give.
fn node_options(words: &[Vec<u8>]) -> Option<NodeOptions>
    ensures options { result ≡ options_in (map (λ w. w.items) words.now) }
    ensures few { IfSome result (λ o. o.blocks ≤ 1_000_000) }
{
    let found = find_all(words)?;
    chosen(found)
}

/// What the options of some words come to.
fn find_all(words: &[Vec<u8>]) -> Option<Found>
    ensures { result ≡ all_options found_with none_found (map (λ w. w.items) words.now) }
{
    let mut found = Found {
        key: None,
        blocks: None,
        forks: None,
    };
    let mut rest = words;
    while !rest.is_empty() {
        let (option, more) = first_option(rest)?;
        found = put_option(found, option)?;
        rest = more;
    }
    Some(found)
}

/// What was found with one more option.
fn put_option(found: Found, option: GivenOption<'_>) -> Option<Found>
    ensures { result ≡ found_with found (option_seen option.entry) }
{
    if option.name == b"key".as_slice() {
        let key = Some(once(found.key, option.value)?);
        Some(Found { key, ..found })
    } else if option.name == b"blocks".as_slice() {
        let blocks = Some(once(found.blocks, option.value)?);
        Some(Found { blocks, ..found })
    } else if option.name == b"forks".as_slice() {
        let forks = Some(once(found.forks, option.value)?);
        Some(Found { forks, ..found })
    } else {
        None
    }
}

/// The number of a value, unless one is held.
fn once(held: Option<u64>, value: &[u8]) -> Option<u64>
    ensures { result ≡ given_once held (number_of value.now) }
{
    match held {
        Some(_) => None,
        None => read_number(value),
    }
}

/// The options, where each was found and fits.
fn chosen(found: Found) -> Option<NodeOptions>
    ensures options { result ≡ options_of found.key found.blocks found.forks }
    ensures few { IfSome result (λ o. o.blocks ≤ 1_000_000) }
{
    let key = found.key?;
    let blocks = found.blocks?;
    let forks = found.forks?;
    if fits(blocks, forks) {
        Some(NodeOptions { key, blocks, forks })
    } else {
        None
    }
}

/// Whether there may be so many blocks, and a fork at about one of so many.
fn fits(blocks: u64, forks: u64) -> bool
    ensures fits { result ≡ fits_these blocks forks }
    ensures few { IsTrue result → blocks ≤ 1_000_000 }
{
    (1..=1_000_000).contains(&blocks) && forks <= 1_000_000
}

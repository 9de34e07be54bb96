//! Reads the lines of a node on standard input in pieces of 65,536 bytes, lets the blocks of each
//! piece go, and prints how many lines and blocks there were. With the words BYTES and ROUNDS it
//! decodes and hashes a payload of so many bytes so often instead, which is the least that reading
//! such blocks costs, and prints how many bytes that were. Time it from outside.
#![tactic(auto)]

mod payloads;
mod reading;

use anyhow::{Context, Result, bail};
use payloads::decode_rounds;
use reading::count_lines;
use std::env;

// The number in a word.
fn number_of(word: &str) -> Result<u64> {
    word.parse::<u64>()
        .context(format_args!("reading {word:?}"))
}

fn main(rt: HostRuntime) -> Result<()> {
    let words: Vec<String> = env::args(&rt)?.collect(rt.alloc())?;
    match words.as_slice() {
        [_] => {
            let counts = count_lines(rt.alloc(), &mut rt.reader())?;
            let (lines, blocks) = (counts.lines, counts.blocks);
            rt.println(format_args!("{lines} lines, {blocks} blocks"))?;
        }
        [_, bytes, rounds] => {
            let rounds = number_of(rounds.as_str())?;
            let bytes = number_of(bytes.as_str())?;
            rt.println(decode_rounds(rt.alloc(), bytes as usize, rounds)?)?;
        }
        _ => bail!("usage: bench_lines [BYTES ROUNDS]"),
    }
    Ok(())
}

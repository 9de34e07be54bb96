//! Takes the blocks of a chain into a shelf in the current folder, merging every hundred, or loads what
//! stands there. Time it from outside, or end it at any moment and load what is left.
#![tactic(auto)]

mod blocks;
mod shelves;
mod takes;

use anyhow::{Result, bail};
use blocks::Fault;
use shelves::load_shelf;
use std::env;
use takes::take_blocks;

fn main(rt: HostRuntime) -> Result<()> {
    let words: Vec<String> = env::args(&rt)?.collect(rt.alloc())?;
    match run_words(&rt, words.as_slice()) {
        Ok(()) => Ok(()),
        Err(Fault::Mem) => bail!("out of memory"),
        Err(Fault::Refused) => bail!("the shelf, a block or the output was refused"),
        Err(Fault::Words) => bail!("usage: bench_store [load | take BLOCKS BYTES]"),
    }
}

/// Does what the words ask for: where there are none it loads.
fn run_words(rt: &HostRuntime, words: &[String]) -> Result<(), Fault> {
    match words {
        [_] => load_shelf(rt),
        [_, part] if part.as_str() == "load" => load_shelf(rt),
        [_, part, blocks, bytes] if part.as_str() == "take" => {
            let blocks = number_of(blocks.as_str())?;
            let bytes = number_of(bytes.as_str())?;
            take_blocks(rt, blocks, bytes)
        }
        _ => Err(Fault::Words),
    }
}

/// The number in a word.
fn number_of(word: &str) -> Result<u64, Fault> {
    match word.parse::<u64>() {
        Ok(number) => Ok(number),
        Err(_) => Err(Fault::Words),
    }
}

//! Plans of bundles in a long history, merges of blocks with payloads, and merges of three branches
//! beside a plain count over lists. It prints counts, the same on every machine. Time it from outside.
#![tactic(auto)]

mod branches;
mod chains;
mod merges;
mod plans;

use anyhow::{Result, bail};
use branches::count_equal;
use chains::Fault;
use merges::{chain_len, copy_payloads, merge_chain};
use plans::{count_none, count_plans};
use std::alloc::Global;
use std::env;

/// How many blocks are merged where no words are given.
const BLOCKS: u64 = 3_000;

fn main(rt: HostRuntime) -> Result<()> {
    let words: Vec<String> = env::args(&rt)?.collect(rt.alloc())?;
    match count_by_words(rt.alloc(), words.as_slice()) {
        Ok(count) => rt.println(count)?,
        Err(Fault::Mem) => bail!("out of memory"),
        Err(Fault::Refused) => bail!("a block or a merge was refused"),
        Err(Fault::Words) => bail!(
            "usage: bench_bundles [none|plan|branches BLOCKS ROUNDS | chain|merge|copy BLOCKS BYTES]"
        ),
    }
    Ok(())
}

/// What the words ask for.
fn count_by_words(alloc: Global, words: &[String]) -> Result<u64, Fault> {
    match words {
        [_] => count_equal(alloc, BLOCKS),
        [_, part, blocks, other] => {
            let blocks = number_of(blocks.as_str())?;
            let other = number_of(other.as_str())?;
            count_part(alloc, part.as_str(), blocks, other)
        }
        _ => Err(Fault::Words),
    }
}

/// The number in a word.
fn number_of(word: &str) -> Result<u64, Fault> {
    match word.parse::<u64>() {
        Ok(number) => Ok(number),
        Err(_) => Err(Fault::Words),
    }
}

/// What a part counts.
fn count_part(alloc: Global, part: &str, blocks: u64, other: u64) -> Result<u64, Fault> {
    match part {
        "none" => count_none(alloc, blocks, other),
        "plan" => count_plans(alloc, blocks, other),
        "chain" => chain_len(alloc, blocks, other),
        "merge" => merge_chain(alloc, blocks, other),
        "copy" => copy_payloads(alloc, blocks, other),
        "branches" => count_equal(alloc, blocks),
        _ => Err(Fault::Words),
    }
}

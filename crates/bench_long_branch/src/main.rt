//! Builds a chain of 1,000,000 blocks with empty payloads and a branch of 500,000 from its middle, takes
//! the batch that leads a client from the end of the chain to the end of the branch, and prints how many
//! blocks there are, how many steps the batch has, and whether it read at most 86 links. Time it from
//! outside.
#![tactic(auto)]

mod across;
mod blocks;
mod tally;

use across::measure;
use anyhow::Result;
use blocks::forked;

/// How many blocks the chain has.
const CHAIN: u64 = 1_000_000;

fn main(rt: HostRuntime) -> Result<()> {
    let intake = forked(rt.alloc(), CHAIN)?;
    let found = measure(rt.alloc(), intake.history(), CHAIN)?;
    let (blocks, steps, few) = (intake.len(), found.steps, found.links <= 86);
    rt.println(format_args!("{blocks} blocks, {steps} steps, at most 86 links: {few}"))?;
    Ok(())
}

//! A chain and two branches that leave it again and again, merged every thousand blocks, and what a
//! plain count over lists says of it.

use crate::chains::{Fault, Given, admit, new_relay};
use crate::merges::merge;
use block_relay::Relay;
use memory_world::MemoryShelf;
use outer_world::{Shelf, ShelfFail};
use std::alloc::Global;

/// Every so many numbers the branches leave the chain anew.
const TURN: u64 = 40;

/// A block of the chain makes the one so many numbers below it final.
const DEPTH: u64 = 64;

/// How many blocks are offered between two merges.
const EVERY: u64 = 1_000;

/// How many bundles are written, and how many blocks of the chain and of the branches are stored.
#[derive(Clone, Copy)]
struct Counts {
    bundles: u64,
    chain: u64,
    branches: u64,
}

/// What is merged, and what was offered.
#[derive(Drop)]
struct Run {
    relay: Relay,
    shelf: MemoryShelf,
    offered: Vec<Given>,
    bundles: u64,
}

/// After how many merges, one each thousand blocks, the counts are those of the lists.
pub fn count_equal(alloc: Global, blocks: u64) -> Result<u64, Fault> {
    let mut run = Run {
        relay: new_relay(alloc)?,
        shelf: MemoryShelf::new(alloc),
        offered: Vec::new(alloc),
        bundles: 0,
    };
    let count = count_turns(alloc, &mut run, blocks / EVERY)?;
    Ok(count)
}

/// The same of so many turns.
fn count_turns(alloc: Global, run: &mut Run, turns: u64) -> Result<u64, Fault> {
    let mut count: u64 = 0;
    for turn in 0..turns {
        offer_thousand(alloc, run, turn)?;
        if is_merged(alloc, run)? {
            count = count.saturating_add(1);
        }
    }
    Ok(count)
}

/// Offers the blocks of a turn.
fn offer_thousand(alloc: Global, run: &mut Run, turn: u64) -> Result<(), Fault> {
    let from = turn.saturating_mul(EVERY);
    for at in from..from.saturating_add(EVERY) {
        let given = given_at(at);
        run.offered.push(given)?;
        admit(alloc, &mut run.relay, given, b"1")?;
    }
    Ok(())
}

/// The block of this place: the root, and then of each number one of the chain and one of each branch.
fn given_at(at: u64) -> Given {
    let num = (at.saturating_add(2) / 3).saturating_add(1);
    let branch = if at == 0 {
        0
    } else {
        (at.saturating_add(2)) % 3
    };
    let is_first = num % TURN == 2;
    Given {
        branch,
        num,
        parent_branch: if is_first { 0 } else { branch },
        lib_num: if branch == 0 {
            num.saturating_sub(DEPTH)
        } else {
            0
        },
    }
}

/// Merges, and whether what is stored is what the lists say.
fn is_merged(alloc: Global, run: &mut Run) -> Result<bool, Fault> {
    let merged = merge(alloc, &mut run.relay, &mut run.shelf)?;
    run.bundles = run.bundles.saturating_add(merged.bundles);
    let plain = plain_counts(run.offered.as_slice());
    let has_files = has_files(alloc, &mut run.shelf, plain)?;
    Ok(has_files && is_same(&run.relay, run.bundles, merged.stored, plain))
}

/// Whether the numbers that are told are those of the lists: of the blocks that are not retained, those
/// of the chain are the stored final ones.
fn is_same(relay: &Relay, bundles: u64, stored: u64, plain: Counts) -> bool {
    let gone = relay.len().saturating_sub(relay.retained());
    bundles == plain.bundles
        && stored == plain.chain
        && gone.saturating_sub(stored) == plain.branches
}

/// What a walk over all that was offered says. The final tip is the lib of the chain's last block; a
/// bundle is due where the tip has its end, and each block below the last end is stored.
fn plain_counts(offered: &[Given]) -> Counts {
    let mut tip: u64 = 0;
    for given in offered {
        tip = tip.max(given.lib_num);
    }
    let end = tip / 100 * 100;
    let mut counts = Counts {
        bundles: end / 100,
        chain: 0,
        branches: 0,
    };
    for given in offered {
        if given.num < end && given.branch == 0 {
            counts.chain = counts.chain.saturating_add(1);
        } else if given.num < end {
            counts.branches = counts.branches.saturating_add(1);
        }
    }
    counts
}

/// Whether the shelf has just so many merged files and files of single blocks.
fn has_files(alloc: Global, shelf: &mut MemoryShelf, counts: Counts) -> Result<bool, Fault> {
    let merged = files_in(alloc, shelf, "merged")?;
    let forked = files_in(alloc, shelf, "forked")?;
    Ok(merged == counts.bundles && forked == counts.branches)
}

/// How many files a folder has.
fn files_in(alloc: Global, shelf: &mut MemoryShelf, folder: &str) -> Result<u64, Fault> {
    let mut names = Vec::new(alloc);
    match shelf.list(alloc, folder, &mut names) {
        Ok(()) => Ok(names.len() as u64),
        Err(_) => Err(Fault::Refused),
    }
}

//! What is due in a long history of which the most is stored.

use crate::chains::{Fault, admit_final, new_relay};
use block_relay::Relay;
use std::alloc::{AllocError, Global};

/// A relay with a chain of so many blocks, all of whose bundles are stored.
fn stored_chain(alloc: Global, blocks: u64) -> Result<Relay, Fault> {
    let mut relay = new_relay(alloc)?;
    for num in 1..blocks.saturating_add(1) {
        admit_final(alloc, &mut relay, num, b"")?;
        shed_next(&mut relay)?;
    }
    Ok(relay)
}

/// Sheds the next plan, where there is one.
fn shed_next(relay: &mut Relay) -> Result<(), AllocError> {
    if let Some(plan) = relay.next_bundle()? {
        relay.shed(&plan);
    }
    Ok(())
}

/// How often nothing is due, where a relay with so many blocks is asked so often.
pub fn count_none(alloc: Global, blocks: u64, rounds: u64) -> Result<u64, Fault> {
    let relay = stored_chain(alloc, blocks)?;
    let count = unplanned(&relay, rounds)?;
    Ok(count)
}

/// In how many of the rounds nothing is due.
fn unplanned(relay: &Relay, rounds: u64) -> Result<u64, AllocError> {
    let mut count: u64 = 0;
    for _ in 0..rounds {
        if relay.next_bundle()?.is_none() {
            count = count.saturating_add(1);
        }
    }
    Ok(count)
}

/// How many final blocks there are in the plans of a relay with so many stored blocks and two hundred
/// more, that is asked so often.
pub fn count_plans(alloc: Global, blocks: u64, rounds: u64) -> Result<u64, Fault> {
    let mut relay = stored_chain(alloc, blocks)?;
    for more in 1..201 {
        admit_final(alloc, &mut relay, blocks.saturating_add(more), b"")?;
    }
    let count = planned(&relay, rounds)?;
    Ok(count)
}

/// How many final blocks there are in the plans of so many rounds.
fn planned(relay: &Relay, rounds: u64) -> Result<u64, AllocError> {
    let mut count: u64 = 0;
    for _ in 0..rounds {
        if let Some(plan) = relay.next_bundle()? {
            count = count.saturating_add(plan.finals.len() as u64);
        }
    }
    Ok(count)
}

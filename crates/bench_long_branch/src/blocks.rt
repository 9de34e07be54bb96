//! A chain, and a branch that leaves it in the middle and overtakes it with its last block.

use anyhow::{Result, bail};
use block_intake::{Intake, IntakeLimits, Offered};
use block_record::{Id, Slip};
use sha2::{Digest, Sha256};
use std::alloc::Global;

const LIMITS: IntakeLimits = IntakeLimits {
    history: 4_194_304,
    wait_blocks: 0,
    wait_bytes: 0,
};

/// The id of the block with this number, of the chain or of the branch by the letter.
pub fn id_of(alloc: Global, letter: char, num: u64) -> Result<Id> {
    let text = format!(in alloc; "{letter}{num}")?;
    match Id::new(alloc, text.as_bytes())? {
        Some(id) => Ok(id),
        None => bail!("{letter}{num} is no id"),
    }
}

/// A chain of so many blocks, whose ids begin with `a`, and a branch of half as many from its middle,
/// whose ids begin with `b`. The branch skips one number, so only its last block is above the chain.
pub fn forked(alloc: Global, count: u64) -> Result<Intake> {
    let mut intake = Intake::new(alloc, 0, LIMITS)?;
    for num in 1..=count {
        admit(alloc, &mut intake, ('a', num), ('a', num.saturating_sub(1)))?;
    }
    let middle = count / 2;
    let mut parent = ('a', middle);
    for num in middle.saturating_add(2)..=count.saturating_add(1) {
        admit(alloc, &mut intake, ('b', num), parent)?;
        parent = ('b', num);
    }
    Ok(intake)
}

/// Admits the block of this letter and number, with an empty payload.
fn admit(
    alloc: Global,
    intake: &mut Intake,
    (letter, num): (char, u64),
    (parent_letter, parent_num): (char, u64),
) -> Result<()> {
    if parent_num >= num {
        bail!("the parent of {num} is {parent_num}");
    }
    let slip = Slip {
        num,
        id: id_of(alloc, letter, num)?,
        parent_num,
        parent_id: id_of(alloc, parent_letter, parent_num)?,
        lib_num: 0,
        time: 0,
        length: 0,
        digest: Sha256::digest(b""),
    };
    match intake.offer(slip, None) {
        Ok(Offered::Admitted { .. }) => Ok(()),
        _ => bail!("{letter}{num} was not admitted"),
    }
}

//! What the rules speak of, found by scans of the history: slow bodies of the definitions.
//!
//! A path is given with its last block first.

ghost use Rattle.std.specs.Prelude.{◌≡◌, ◌≤◌, nat_le, nat_lt, IfOk, length, map, drop, reverse, find};
ghost use Rattle.std.specs.Option.{option_copied};
ghost use Rattle.chain_model.specs.Ancestry.{ancestry, has_id};
ghost use Rattle.chain_model.specs.Finality.{root_num, claim, final_tip, final_ancestry, greater};
ghost use Rattle.chain_model.specs.Steps.{holds_tip, head, drop_while, whole_target, target};
ghost use Rattle.chain_model.specs.Seen.{seen};

use crate::places::Mode;
use block_record::{Id, Slip};
use std::alloc::{AllocError, Global};

/// The block with this id, its parent, and so on to the root: nothing where no block has the id.
pub fn ancestry_in<'a>(
    alloc: Global,
    history: &'a [Slip],
    id: &'a Id,
) -> Result<Vec<&'a Slip>, AllocError>
    ensures { IfOk result (λ path. seen path.items ≡ ancestry (reverse history.now) id.now) }
{
    let mut path = Vec::new(alloc);
    let mut wanted = id;
    let mut older = history;
    while let Some((newest, rest)) = older.split_last() {
        if newest.id == *wanted {
            path.push(newest)?;
            wanted = &newest.parent_id;
        }
        older = rest;
    }
    Ok(path)
}

/// Whether one of the blocks has the id.
pub fn contains_id(path: &[&Slip], id: &Id) -> bool
    ensures { result ≡ has_id (seen path.now) id.now }
{
    for s in path {
        if s.id == *id {
            return true;
        }
    }
    false
}

/// The number of the root, and 0 where there are no blocks.
pub fn root_number(history: &[Slip]) -> u64
    ensures { result ≡ root_num (reverse history.now) }
{
    match history.first() {
        Some(root) => root.num,
        None => 0,
    }
}

/// The first block with a number of at most the limit.
fn first_up_to<'a>(path: &[&'a Slip], limit: u64) -> Option<&'a Slip>
    ensures { option_copied result ≡ find (λ x. nat_le x.num limit) (seen path.now) }
{
    for s in path {
        if s.num <= limit {
            return Some(*s);
        }
    }
    None
}

/// What the block claims to be final: the last block of its path whose number is at most its lib
/// number, or at most the root's where that is greater. Numbers may be skipped. None for a block
/// that the history does not have.
pub fn claim_of<'a>(
    alloc: Global,
    history: &'a [Slip],
    block: &'a Slip,
) -> Result<Option<&'a Slip>, AllocError>
    ensures { IfOk result (λ c. option_copied c ≡ claim (reverse history.now) block.now) }
{
    let limit = block.lib_num.max(root_number(history));
    let path = ancestry_in(alloc, history, &block.id)?;
    Ok(first_up_to(path.as_slice(), limit))
}

/// The one with the greater number, and of two with one number the first.
fn greater_of<'a>(best: Option<&'a Slip>, next: &'a Slip) -> &'a Slip
    ensures { greater (option_copied best.entry) next.now ≡ Some result.now }
{
    match best {
        Some(block) if block.num >= next.num => block,
        _ => next,
    }
}

/// The last final block: the claim with the greatest number. None where there are no blocks.
pub fn final_tip_of<'a>(alloc: Global, history: &'a [Slip]) -> Result<Option<&'a Slip>, AllocError>
    ensures { IfOk result (λ t. option_copied t ≡ final_tip (reverse history.now)) }
{
    let mut best = None;
    for block in history {
        if let Some(claim) = claim_of(alloc, history, block)? {
            best = Some(greater_of(best, claim));
        }
    }
    Ok(best)
}

/// The final path, its tip first and the root last.
pub fn final_path_of<'a>(alloc: Global, history: &'a [Slip]) -> Result<Vec<&'a Slip>, AllocError>
    ensures { IfOk result (λ path. seen path.items ≡ final_ancestry (reverse history.now)) }
{
    match final_tip_of(alloc, history)? {
        Some(tip) => ancestry_in(alloc, history, &tip.id),
        None => Ok(Vec::new(alloc)),
    }
}

/// Whether the path of the block has the tip, where there is one.
fn has_tip(
    alloc: Global,
    history: &[Slip],
    tip: Option<&Slip>,
    block: &Slip,
) -> Result<bool, AllocError>
    ensures { IfOk result
        (λ b. b ≡ holds_tip (reverse history.now) (option_copied tip.entry) block.now) }
{
    match tip {
        Some(tip) => {
            let path = ancestry_in(alloc, history, &block.id)?;
            Ok(contains_id(path.as_slice(), &tip.id))
        }
        None => Ok(true),
    }
}

/// The head: the block with the greatest number of those whose path has the final tip, and of
/// equals the first in the history. A higher block on another branch is no head.
pub fn head_of<'a>(alloc: Global, history: &'a [Slip]) -> Result<Option<&'a Slip>, AllocError>
    ensures { IfOk result (λ h. option_copied h ≡ head (reverse history.now)) }
{
    let tip = final_tip_of(alloc, history)?;
    let mut best = None;
    for block in history {
        if has_tip(alloc, history, tip, block)? {
            best = Some(greater_of(best, block));
        }
    }
    Ok(best)
}

/// How many blocks at the front have a number above the stop.
fn count_above(path: &[&Slip], stop: u64) -> usize
    ensures bound { result ≤ length path.now }
    ensures rest { seen (drop result path.now)
        ≡ drop_while (λ s. nat_lt stop s.num) (seen path.now) }
{
    for (i, s) in path.iter().enumerate() {
        if s.num <= stop {
            return i;
        }
    }
    path.len()
}

/// The target, its last block first: the path of the head, or the final path, cut after its last
/// block with a number of at most the stop.
pub fn target_of<'a>(
    alloc: Global,
    history: &'a [Slip],
    mode: Mode,
    stop: Option<u64>,
) -> Result<Vec<&'a Slip>, AllocError>
    ensures { IfOk result (λ path. seen path.items ≡ target (reverse history.now) mode stop) }
{
    let path = full_target(alloc, history, mode)?;
    match stop {
        Some(stop) => {
            let above = count_above(path.as_slice(), stop);
            let rest = Vec::from_slice(alloc, &path[above..])?;
            Ok(rest)
        }
        None => Ok(path),
    }
}

/// The target of no stop.
fn full_target<'a>(
    alloc: Global,
    history: &'a [Slip],
    mode: Mode,
) -> Result<Vec<&'a Slip>, AllocError>
    ensures { IfOk result (λ path. seen path.items ≡ whole_target (reverse history.now) mode) }
{
    match mode {
        Mode::Live => match head_of(alloc, history)? {
            Some(head) => ancestry_in(alloc, history, &head.id),
            None => Ok(Vec::new(alloc)),
        },
        Mode::Final => final_path_of(alloc, history),
    }
}

//! The steps from a place to a target, by scans of the history.

ghost use Rattle.std.specs.Prelude.{◌≡◌, ◌≤◌, ◌++◌, ◌∷◌, [], not, IfOk, OnOk, length, map, take, drop, filter, reverse};
ghost use Rattle.chain_model.specs.Ancestry.{has_id};
ghost use Rattle.chain_model.specs.Steps.{keep_while, drop_while, is_after, ancestry_at, block_step, answers, steps_between, steps_of};
ghost use Rattle.chain_model.specs.Seen.{seen, steps_seen};

use crate::places::{Mode, Place, Step};
use crate::scans::{ancestry_in, contains_id, final_path_of, target_of};
use block_record::{BlockRef, Slip};
use std::alloc::{AllocError, Global};

/// A step with its block's slip.
#[derive(Clone, Copy)]
pub struct SlipStep<'a> {
    pub step: Step,
    pub slip: &'a Slip,
}

/// The path of the block at a reference, its last block first.
fn end_path<'a>(
    alloc: Global,
    history: &'a [Slip],
    end: &'a Option<BlockRef>,
) -> Result<Vec<&'a Slip>, AllocError>
    ensures { IfOk result
        (λ path. seen path.items ≡ ancestry_at (reverse history.now) end.now) }
{
    match end {
        Some(block) => ancestry_in(alloc, history, &block.id),
        None => Ok(Vec::new(alloc)),
    }
}

/// How many blocks at the front are not on the other path.
fn count_apart(path: &[&Slip], other: &[&Slip]) -> usize
    ensures bound { result ≤ length path.now }
    ensures front { seen (take result path.now)
        ≡ keep_while (λ s. not (has_id (seen other.now) s.id)) (seen path.now) }
    ensures rest { seen (drop result path.now)
        ≡ drop_while (λ s. not (has_id (seen other.now) s.id)) (seen path.now) }
{
    for (i, s) in path.iter().enumerate() {
        if contains_id(other, &s.id) {
            return i;
        }
    }
    path.len()
}

/// How many blocks at the front come after the block at a reference.
fn count_after(path: &[&Slip], block: &Option<BlockRef>) -> usize
    ensures bound { result ≤ length path.now }
    ensures front { seen (take result path.now) ≡ keep_while (is_after block.now) (seen path.now) }
{
    let Some(block) = block else {
        return path.len();
    };
    for (i, s) in path.iter().enumerate() {
        if s.num <= block.num {
            return i;
        }
    }
    path.len()
}

/// Appends a step for each block, in the order of the path.
fn push_down<'a>(
    out: &mut Vec<SlipStep<'a>>,
    step: Step,
    path: &[&'a Slip],
) -> Result<(), AllocError>
    ensures { OnOk result (steps_seen out.new.items
        ≡ steps_seen out.old.items ++ map (block_step step) (seen path.now)) }
{
    for slip in path {
        out.push(SlipStep { step, slip: *slip })?;
    }
    Ok(())
}

/// Appends a step for each block that is final, or that is not, the last of the path first.
fn push_up<'a>(
    out: &mut Vec<SlipStep<'a>>,
    step: Step,
    path: &[&'a Slip],
    finals: &[&Slip],
    wanted: bool,
) -> Result<(), AllocError>
    ensures { OnOk result (steps_seen out.new.items ≡ steps_seen out.old.items
        ++ map (block_step step)
        (reverse (filter (λ s. answers wanted (has_id (seen finals.now) s.id)) (seen path.now)))) }
{
    let count = path.len();
    for i in 0..count {
        let last = count - 1 - i;
        let slip = path[last];
        push_wanted(out, step, slip, finals, wanted)?;
    }
    Ok(())
}

/// Appends a step for the block, if it is final as wanted.
fn push_wanted<'a>(
    out: &mut Vec<SlipStep<'a>>,
    step: Step,
    slip: &'a Slip,
    finals: &[&Slip],
    wanted: bool,
) -> Result<(), AllocError>
    ensures { OnOk result (steps_seen out.new.items ≡ steps_seen out.old.items
        ++ map (block_step step)
        (filter (λ s. answers wanted (has_id (seen finals.now) s.id)) (slip.now ∷ []))) }
{
    if is_wanted(contains_id(finals, &slip.id), wanted) {
        out.push(SlipStep { step, slip })?;
        return Ok(());
    }
    Ok(())
}

fn is_wanted(answer: bool, wanted: bool) -> bool
    ensures { result ≡ answers wanted answer }
{
    if wanted { answer } else { !answer }
}

/// The steps from one path to another, where the blocks up to `lib` are marked final.
fn between<'a>(
    alloc: Global,
    finals: &[&Slip],
    held: &[&'a Slip],
    lib: &Option<BlockRef>,
    wanted: &[&'a Slip],
) -> Result<Vec<SlipStep<'a>>, AllocError>
    ensures { IfOk result (λ steps. steps_seen steps.items
        ≡ steps_between (seen finals.now) (seen held.now) lib.now (seen wanted.now)) }
{
    let undone = count_apart(held, wanted);
    let added = count_apart(wanted, held);
    let kept = &wanted[added..];
    let unmarked = count_after(kept, lib);
    let mut steps = Vec::new(alloc);
    push_down(&mut steps, Step::Undo, &held[..undone])?;
    push_up(&mut steps, Step::Final, &kept[..unmarked], finals, true)?;
    push_up(&mut steps, Step::NewFinal, &wanted[..added], finals, true)?;
    push_up(&mut steps, Step::New, &wanted[..added], finals, false)?;
    Ok(steps)
}

/// The steps from the place to the target.
pub fn slip_steps<'a>(
    alloc: Global,
    history: &'a [Slip],
    place: &'a Place,
    mode: Mode,
    stop: Option<u64>,
) -> Result<Vec<SlipStep<'a>>, AllocError>
    ensures { IfOk result (λ steps. steps_seen steps.items
        ≡ steps_of (reverse history.now) place.now mode stop) }
{
    let finals = final_path_of(alloc, history)?;
    let held = end_path(alloc, history, &place.end)?;
    let wanted = target_of(alloc, history, mode, stop)?;
    let steps = between(
        alloc,
        finals.as_slice(),
        held.as_slice(),
        &place.lib,
        wanted.as_slice(),
    )?;
    Ok(steps)
}

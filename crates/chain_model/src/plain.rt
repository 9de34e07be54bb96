//! Steps as they are told, and the place that they lead to.

ghost use Rattle.std.specs.Prelude.{◌≡◌, IfOk, map, reverse};
ghost use Rattle.chain_model.specs.Steps.{ref_of, parent_of, plain_of, steps_of, place_after};
ghost use Rattle.chain_model.specs.Places.{place_along, place_to as place_after_steps};
ghost use Rattle.chain_model.specs.Seen.{step_seen, steps_seen};

use crate::places::{Mode, Place, PlainStep, Step};
use crate::steps::{SlipStep, slip_steps};
use block_record::{BlockRef, Slip};
use std::alloc::{AllocError, Global};

/// The steps from the place to the target, in the order in which a client takes them, each with its
/// block. The end of the place is found by its id, and counts as none where the history does not
/// have it. Its lib is not looked up: what the client has up to that number is not marked again. It
/// scans the history again and again.
pub fn plain_steps(
    alloc: Global,
    history: &[Slip],
    place: &Place,
    mode: Mode,
    stop: Option<u64>,
) -> Result<Vec<PlainStep>, AllocError>
    ensures { IfOk result (λ steps. steps.items
        ≡ map plain_of (steps_of (reverse history.now) place.now mode stop)) }
{
    let steps = slip_steps(alloc, history, place, mode, stop)?;
    let told = told_steps(alloc, steps.as_slice())?;
    Ok(told)
}

fn told_steps(alloc: Global, steps: &[SlipStep]) -> Result<Vec<PlainStep>, AllocError>
    ensures { IfOk result (λ told. told.items ≡ map plain_of (steps_seen steps.now)) }
{
    let mut told = Vec::new(alloc);
    for x in steps {
        told.push(told_step(x)?)?;
    }
    Ok(told)
}

fn told_step(x: &SlipStep) -> Result<PlainStep, AllocError>
    ensures { IfOk result (λ told. told ≡ plain_of (step_seen x.now)) }
{
    Ok(PlainStep {
        step: x.step,
        num: x.slip.num,
        id: x.slip.id.clone()?,
    })
}

/// The place after the steps from the place to the target. After an undo the end is what the block
/// names as its parent, by number and id, whether the history has it or not.
pub fn place_to(
    alloc: Global,
    history: &[Slip],
    place: &Place,
    mode: Mode,
    stop: Option<u64>,
) -> Result<Place, AllocError>
    ensures { IfOk result
        (λ p. p ≡ place_after_steps (reverse history.now) place.now mode stop) }
{
    let steps = slip_steps(alloc, history, place, mode, stop)?;
    let reached = place_after_all(place, steps.as_slice())?;
    Ok(reached)
}

fn place_after_all(place: &Place, steps: &[SlipStep]) -> Result<Place, AllocError>
    ensures { IfOk result (λ p. p ≡ place_along place.now (steps_seen steps.now)) }
{
    let mut reached = place.clone()?;
    for x in steps {
        reached = place_after_one(reached, x)?;
    }
    Ok(reached)
}

fn place_after_one(place: Place, x: &SlipStep) -> Result<Place, AllocError>
    ensures { IfOk result (λ p. p ≡ place_after place (step_seen x.now)) }
{
    let Place { end, lib } = place;
    match x.step {
        Step::New => Ok(Place {
            end: Some(reference(x.slip)?),
            lib,
        }),
        Step::Undo => Ok(Place {
            end: Some(parent_reference(x.slip)?),
            lib,
        }),
        Step::Final => Ok(Place {
            end,
            lib: Some(reference(x.slip)?),
        }),
        Step::NewFinal => Ok(Place {
            end: Some(reference(x.slip)?),
            lib: Some(reference(x.slip)?),
        }),
    }
}

fn reference(block: &Slip) -> Result<BlockRef, AllocError>
    ensures { IfOk result (λ r. r ≡ ref_of block.now) }
{
    Ok(BlockRef {
        num: block.num,
        id: block.id.clone()?,
    })
}

fn parent_reference(block: &Slip) -> Result<BlockRef, AllocError>
    ensures { IfOk result (λ r. r ≡ parent_of block.now) }
{
    Ok(BlockRef {
        num: block.parent_num,
        id: block.parent_id.clone()?,
    })
}

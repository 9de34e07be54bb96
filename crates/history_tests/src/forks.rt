//! Small histories with forks, with answers worked out by hand.

use crate::blocks::{Fields, block_of};
use block_record::slip_of;
use chain_model::{Mode, Place, Step};
use fork_db::{ForkDb, ForkFault, StepItem, Verdict};
use link_rows::Uncounted;
use std::alloc::{AllocError, Global};
use std::sync::Arc;
use std::test::Fail;

/// A block that is offered, its verdict, and then the head, the final tip, and what the last block
/// claims.
type Offer = (Fields, Verdict, (usize, usize, usize));

/// A late final block, c2, rules out a longer branch.
const FORK: &[Offer] = &[
    ((1, "a1", 0, "a0", 0), Verdict::Fits, (0, 0, 0)),
    ((2, "b2", 1, "a1", 1), Verdict::Fits, (1, 0, 0)),
    ((3, "b3", 2, "b2", 1), Verdict::Fits, (2, 0, 0)),
    ((4, "b4", 3, "b3", 1), Verdict::Fits, (3, 0, 0)),
    ((2, "c2", 1, "a1", 2), Verdict::Fits, (4, 4, 4)),
    ((9, "c2", 8, "q8", 0), Verdict::IdHeld, (4, 4, 4)),
    ((4, "x4", 3, "q3", 1), Verdict::NoParent, (4, 4, 4)),
    ((5, "x5", 4, "b3", 1), Verdict::ParentNumber, (4, 4, 4)),
    // The parent's number comes before the claim.
    ((5, "x5", 3, "b4", 3), Verdict::ParentNumber, (4, 4, 4)),
    // A claim beside the final tip does not agree, whether it is an older block or the block itself,
    // whose lib number is above its own. One below it agrees.
    ((5, "x5", 4, "b4", 3), Verdict::Disagrees, (4, 4, 4)),
    ((5, "x5", 4, "b4", 9), Verdict::Disagrees, (4, 4, 4)),
    ((5, "b5", 4, "b4", 1), Verdict::Fits, (4, 4, 0)),
    ((3, "d3", 2, "c2", 9), Verdict::Fits, (6, 6, 6)),
];

/// Two blocks of one number, and numbers that are skipped, one of them as a lib number.
const TIE: &[Offer] = &[
    ((7, "a7", 3, "q3", 0), Verdict::Fits, (0, 0, 0)),
    ((8, "b8", 7, "a7", 7), Verdict::Fits, (1, 0, 0)),
    ((8, "c8", 7, "a7", 7), Verdict::Fits, (1, 0, 0)),
    ((9, "d9", 8, "c8", 7), Verdict::Fits, (3, 0, 0)),
    ((12, "e12", 9, "d9", 11), Verdict::Fits, (4, 3, 3)),
];

#[test]
fn offers_are_answered_as_by_hand(rt: HostRuntime) -> Result<(), Fail> {
    for offers in [FORK, TIE] {
        let mut db = ForkDb::new(rt.alloc(), 100)?;
        assert!(rt; are_answered(rt.alloc(), &mut db, offers)?);
    }
    Ok(())
}

fn are_answered(alloc: Global, db: &mut ForkDb, offers: &[Offer]) -> Result<bool, ForkFault> {
    for (fields, verdict, known) in offers {
        if offer(alloc, db, *fields)? != Some(*verdict) || known_of(db) != Some(*known) {
            return Ok(false);
        }
    }
    Ok(true)
}

/// Appends the block where it fits, and gives its verdict. None where the fields are no block's.
fn offer(alloc: Global, db: &mut ForkDb, fields: Fields) -> Result<Option<Verdict>, ForkFault> {
    let Some(block) = block_of(alloc, fields)? else {
        return Ok(None);
    };
    let verdict = db.can_append(&block);
    if verdict == Verdict::Fits {
        let slip = slip_of(alloc, &block)?;
        let held = Arc::new(alloc, block).ok();
        db.append(slip, held)?;
    }
    Ok(Some(verdict))
}

/// The head, the final tip, and what the last block claims.
fn known_of(db: &ForkDb) -> Option<(usize, usize, usize)> {
    let last = db.len().checked_sub(1)?;
    Some((db.head()?, db.final_tip()?, db.claim(last as usize)))
}

/// A step by its block's number, whether that is held, and the numbers of the end and of the lib
/// after it.
type Item = (Step, u64, bool, u64, u64);

const THIRD: Item = (Step::NewFinal, 9, true, 9, 9);

const FOURTH: Item = (Step::New, 12, false, 12, 9);

#[test]
fn a_client_gets_from_its_start_to_the_head(rt: HostRuntime) -> Result<(), Fail> {
    let mut db = ForkDb::new(rt.alloc(), 100)?;
    assert!(rt; are_answered(rt.alloc(), &mut db, TIE)?);
    if db.len() == 5 {
        db.release(4);
    }
    assert!(rt; are_led(rt.alloc(), &db)?);
    assert!(rt; nums_of(&db.opening(9)?) == (8, 8));
    Ok(())
}

/// Whether a client at its start gets four steps, to the last block.
fn are_led(alloc: Global, db: &ForkDb) -> Result<bool, AllocError> {
    let start = Place {
        end: None,
        lib: None,
    };
    let batch = db.batch(&start, Mode::Live, None, &mut Uncounted)?;
    let mut items = Vec::new(alloc);
    db.chunk(&batch, 2, 9, &mut items)?;
    let place = db.place_after(&batch, 4)?;
    Ok(are_last_two(items.as_slice()) && nums_of(&place) == (12, 9))
}

fn are_last_two(items: &[StepItem]) -> bool {
    match items {
        [third, fourth] => item_of(third) == THIRD && item_of(fourth) == FOURTH,
        _ => false,
    }
}

fn item_of(item: &StepItem) -> Item {
    let (end, lib) = nums_of(&item.place);
    (item.step, item.slip.num, item.held.is_some(), end, lib)
}

/// The numbers of the end and of the lib, 0 where there is none.
fn nums_of(place: &Place) -> (u64, u64) {
    match (&place.end, &place.lib) {
        (Some(end), Some(lib)) => (end.num, lib.num),
        _ => (0, 0),
    }
}

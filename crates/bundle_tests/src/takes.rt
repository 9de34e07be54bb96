//! Blocks of a reader that are taken, each with a file of its own, where each call of the shelf fails once.

use crate::blocks::FORK;
use crate::forks::{CALLS, MERGED};
use crate::plants::{Left, Names, Plant, TakeAnswer};
use history_tests::blocks::{A1, Whole};
use std::alloc::Global;
use std::test::Fail;

/// The plant that a block is taken into.
#[derive(Clone, Copy)]
enum Before {
    Empty,
    /// With the block a1.
    First,
    /// With the fork, merged.
    Merged,
}

/// A block that is taken, its files, what it is answered where nothing fails, and its stops.
struct Case {
    before: Before,
    fields: Whole,
    names: Names,
    answer: TakeAnswer,
    stops: &'static [Stop],
}

/// Calls of the shelf, from one number up to below another one; what is left where one of them fails; and
/// what is left once the block was taken again.
struct Stop {
    from: u64,
    until: u64,
    stopped: Left,
    again: Left,
}

const NAMES: Names = Names {
    one: "one/0000000001-19700101T000000.0-a1-a0-0-r1.dbin",
    refused: "refused/0000000001-19700101T000000.0-a1-a0-0-r1.dbin",
};

/// The file is looked for, staged and put in place.
const FRESH: Case = Case {
    before: Before::Empty,
    fields: A1,
    names: NAMES,
    answer: TakeAnswer::Admitted,
    stops: &[Stop {
        from: 0,
        until: 3,
        stopped: Left {
            one: false,
            refused: false,
            own: 0,
            conflicts: 0,
            blocks: 0,
        },
        again: Left {
            one: true,
            refused: false,
            own: 1,
            conflicts: 0,
            blocks: 1,
        },
    }],
};

/// A block that names its parent by another number than the parent's. Its file is put in place as any
/// other, then staged and put in place among the refused ones, and then removed. A file whose removal was
/// tried is no own file any more.
const CONTRADICTION: Case = Case {
    before: Before::First,
    fields: (3, "p3", 2, "a1", 1, b"1"),
    names: Names {
        one: "one/0000000003-19700101T000000.0-p3-a1-1-r1.dbin",
        refused: "refused/0000000003-19700101T000000.0-p3-a1-1-r1.dbin",
    },
    answer: TakeAnswer::Contradicts,
    stops: &[
        Stop {
            from: 0,
            until: 3,
            stopped: Left {
                one: false,
                refused: false,
                own: 0,
                conflicts: 0,
                blocks: 1,
            },
            again: SET_ASIDE,
        },
        Stop {
            from: 3,
            until: 5,
            stopped: Left {
                one: true,
                refused: false,
                own: 1,
                conflicts: 1,
                blocks: 1,
            },
            again: SET_ASIDE_AGAIN,
        },
        Stop {
            from: 5,
            until: 6,
            stopped: Left {
                one: true,
                refused: true,
                own: 0,
                conflicts: 1,
                blocks: 1,
            },
            again: SET_ASIDE_AGAIN,
        },
    ],
};

const SET_ASIDE: Left = Left {
    one: false,
    refused: true,
    own: 0,
    conflicts: 1,
    blocks: 1,
};

/// The block was offered twice.
const SET_ASIDE_AGAIN: Left = Left {
    one: false,
    refused: true,
    own: 0,
    conflicts: 2,
    blocks: 1,
};

/// A block that is stored. Its file is put in place as any other, and then removed.
const STORED: Case = Case {
    before: Before::Merged,
    fields: A1,
    names: NAMES,
    answer: TakeAnswer::Duplicate,
    stops: &[
        Stop {
            from: 0,
            until: 3,
            stopped: SWEPT,
            again: SWEPT,
        },
        Stop {
            from: 3,
            until: 4,
            stopped: Left {
                one: true,
                refused: false,
                own: 0,
                conflicts: 0,
                blocks: 4,
            },
            again: SWEPT,
        },
    ],
};

const SWEPT: Left = Left {
    one: false,
    refused: false,
    own: 0,
    conflicts: 0,
    blocks: 4,
};

/// How many calls of the shelf are made before the take.
fn calls_before(before: Before) -> u64 {
    match before {
        Before::Empty | Before::First => 0,
        Before::Merged => CALLS,
    }
}

/// Makes an empty plant the one that the block is taken into, and tells whether it did.
fn prepares(alloc: Global, plant: &mut Plant, before: Before) -> Result<bool, Fail> {
    match before {
        Before::Empty => Ok(true),
        Before::First => {
            plant.admit_all(alloc, &[A1])?;
            Ok(true)
        }
        Before::Merged => {
            plant.admit_all(alloc, FORK)?;
            Ok(plant.merge(alloc) == MERGED)
        }
    }
}

/// Whether all stops of a case leave what they are to.
fn are_made_good(alloc: Global, case: &Case) -> Result<bool, Fail> {
    for stop in case.stops {
        if !are_stops_made_good(alloc, case, stop)? {
            return Ok(false);
        }
    }
    Ok(true)
}

fn are_stops_made_good(alloc: Global, case: &Case, stop: &Stop) -> Result<bool, Fail> {
    for call in stop.from..stop.until {
        if !is_made_good(alloc, case, stop, call)? {
            return Ok(false);
        }
    }
    Ok(true)
}

fn is_made_good(alloc: Global, case: &Case, stop: &Stop, call: u64) -> Result<bool, Fail> {
    let fails = call.saturating_add(calls_before(case.before));
    let mut plant = Plant::new(alloc, false, Some(fails))?;
    let is_made_good = takes_again(alloc, &mut plant, case, stop);
    plant.close();
    is_made_good
}

/// Whether a take fails and leaves what it is to, and so does the one after it, which does not fail.
fn takes_again(alloc: Global, plant: &mut Plant, case: &Case, stop: &Stop) -> Result<bool, Fail> {
    let is_prepared = prepares(alloc, plant, case.before)?;
    let is_stopped = leaves(alloc, plant, case, TakeAnswer::Failed, stop.stopped)?;
    let is_taken = leaves(alloc, plant, case, case.answer, stop.again)?;
    Ok(is_prepared && is_stopped && is_taken)
}

/// Whether a take of the block has this answer, and leaves this.
fn leaves(
    alloc: Global,
    plant: &mut Plant,
    case: &Case,
    answer: TakeAnswer,
    left: Left,
) -> Result<bool, Fail> {
    let taken = plant.take(alloc, case.fields)?;
    let found = plant.left(alloc, case.names)?;
    Ok(taken == answer && found == left)
}

#[test]
fn a_block_that_is_taken_has_a_file(rt: HostRuntime) -> Result<(), Fail> {
    assert!(rt; are_made_good(rt.alloc(), &FRESH)?);
    Ok(())
}

#[test]
fn a_block_that_contradicts_is_set_aside(rt: HostRuntime) -> Result<(), Fail> {
    assert!(rt; are_made_good(rt.alloc(), &CONTRADICTION)?);
    Ok(())
}

#[test]
fn a_block_that_is_stored_needs_no_file(rt: HostRuntime) -> Result<(), Fail> {
    assert!(rt; are_made_good(rt.alloc(), &STORED)?);
    Ok(())
}

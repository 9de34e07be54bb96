//! Shelves that are loaded, with counts worked out by hand.

use crate::files::{File, HEAD, are_alike, shelf_of};
use crate::relays::{fill, fill_failing};
use block_relay::Relay;
use history_tests::blocks::{A1, B2, Whole};
use memory_world::{FailingShelf, MemoryShelf};
use one_block::StoreFault;
use relay_look::tip_number;
use shelf_check::LoadFault;
use shelf_load::Loaded;
use std::alloc::Global;
use std::test::Fail;

/// What a load answers: what was loaded, the final tip's number, and how many blocks are stored and
/// retained then, or why it was refused.
#[derive(Clone, Copy, PartialEq, Eq)]
enum Answer {
    Loads {
        loaded: Loaded,
        tip: u64,
        stored: u64,
        retained: u64,
    },
    Full {
        len: u64,
        need: u64,
    },
    Bad {
        named: bool,
        at: u64,
    },
    Clash {
        named: bool,
    },
    Failed,
    Other,
}

const C2: Whole = (2, "c2", 1, "a1", 2, b"1");

const Z5: Whole = (105, "z5", 2, "c2", 105, b"1");

const MERGED: File = File {
    name: "merged/0000000000.dbin",
    head: HEAD,
    blocks: &[A1, C2],
};

const FORKED: File = File {
    name: "forked/0000000002-b2.dbin",
    head: HEAD,
    blocks: &[B2],
};

const ONE: File = File {
    name: "one/0000000105-19700101T000000.0-z5-c2-105-r1.dbin",
    head: HEAD,
    blocks: &[Z5],
};

/// The files that a merge of a fork leaves.
const FORK: &[File] = &[MERGED, FORKED, ONE];

/// What those give: all four blocks and the final tip that the last one names. That one alone is not
/// stored, and of the other three two are final.
const GIVEN: Answer = Answer::Loads {
    loaded: Loaded {
        admitted: 4,
        waiting: 0,
        passed: 0,
        conflicts: 0,
    },
    tip: 105,
    stored: 2,
    retained: 1,
};

/// Blocks of a parent that is nowhere, of which two may wait, and one of a parent that is there.
const ORPHANS: &[File] = &[
    File {
        name: "one/0000000001-19700101T000000.0-a1-a0-0-r1.dbin",
        head: HEAD,
        blocks: &[A1],
    },
    File {
        name: "one/0000000004-19700101T000000.0-x4-x3-0-r1.dbin",
        head: HEAD,
        blocks: &[(4, "x4", 3, "x3", 0, b"1")],
    },
    File {
        name: "one/0000000005-19700101T000000.0-y5-x4-0-r1.dbin",
        head: HEAD,
        blocks: &[(5, "y5", 4, "x4", 0, b"1")],
    },
    File {
        name: "one/0000000006-19700101T000000.0-w6-x4-0-r1.dbin",
        head: HEAD,
        blocks: &[(6, "w6", 4, "x4", 0, b"1")],
    },
    File {
        name: "one/0000000007-19700101T000000.0-b7-a1-0-r1.dbin",
        head: HEAD,
        blocks: &[(7, "b7", 1, "a1", 0, b"1")],
    },
];

/// The root again, in its own file, and a final block with another payload.
const AGAIN: &[File] = &[
    MERGED,
    File {
        name: "one/0000000001-19700101T000000.0-a1-a0-0-r1.dbin",
        head: HEAD,
        blocks: &[A1],
    },
    File {
        name: "one/0000000002-19700101T000000.0-c2-a1-2-r1.dbin",
        head: HEAD,
        blocks: &[(2, "c2", 1, "a1", 2, b"7")],
    },
];

/// More blocks than there is room for.
const LONG: &[File] = &[File {
    name: "merged/0000000000.dbin",
    head: HEAD,
    blocks: &[
        A1,
        (2, "b2", 1, "a1", 0, b"1"),
        (3, "b3", 2, "b2", 0, b"1"),
        (4, "b4", 3, "b3", 0, b"1"),
        (5, "b5", 4, "b4", 0, b"1"),
        (6, "b6", 5, "b5", 0, b"1"),
    ],
}];

/// A file of merged blocks that has none.
const EMPTY: &[File] = &[File {
    name: "merged/0000000000.dbin",
    head: HEAD,
    blocks: &[],
}];

/// A file of one block, under a name of no form.
const MISNAMED: &[File] = &[
    MERGED,
    File {
        name: "one/x.dbin",
        head: HEAD,
        blocks: &[Z5],
    },
];

/// A file of another type.
const OTHER_TYPE: &[File] = &[
    MERGED,
    File {
        name: "one/0000000105-19700101T000000.0-z5-c2-105-r1.dbin",
        head: b"dbin\x01\x00\x0aothr.Block",
        blocks: &[Z5],
    },
];

fn loads(admitted: u64, waiting: u64, passed: u64, conflicts: u64) -> Loaded {
    Loaded {
        admitted,
        waiting,
        passed,
        conflicts,
    }
}

/// The room of the histories.
const ROOM: u64 = 5;

/// Whether these files are answered so, where blocks from `first` on are taken and `bad` is the file
/// that is named in a refusal.
fn is_answered(
    alloc: Global,
    files: &[File],
    first: u64,
    bad: &str,
    wanted: Answer,
) -> Result<bool, Fail> {
    let mut shelf = shelf_of(alloc, files)?;
    let filled = fill(alloc, first, ROOM, &mut shelf)?;
    Ok(answer_of(&filled.relay, &filled.answer, bad) == wanted)
}

fn answer_of(relay: &Relay, answer: &Result<Loaded, LoadFault>, bad: &str) -> Answer {
    match answer {
        Ok(loaded) => Answer::Loads {
            loaded: *loaded,
            tip: tip_number(relay.history()),
            stored: relay.stored_finals(),
            retained: relay.retained(),
        },
        Err(fault) => refusal_of(fault, bad),
    }
}

fn refusal_of(fault: &LoadFault, bad: &str) -> Answer {
    match fault {
        LoadFault::HistoryFull { len, need } => Answer::Full {
            len: *len,
            need: *need,
        },
        LoadFault::Store(StoreFault::ShelfBad { name, at }) => Answer::Bad {
            named: name.as_bytes() == bad.as_bytes(),
            at: *at,
        },
        LoadFault::KindClash { held, offered } => Answer::Clash {
            named: held.as_bytes() == b"test.Block".as_slice()
                && offered.as_bytes() == b"othr.Block".as_slice(),
        },
        LoadFault::Store(StoreFault::ShelfFault) => Answer::Failed,
        LoadFault::Store(_) => Answer::Other,
    }
}

fn given(loaded: Loaded, tip: u64, stored: u64, retained: u64) -> Answer {
    Answer::Loads {
        loaded,
        tip,
        stored,
        retained,
    }
}

fn bad_at(at: u64) -> Answer {
    Answer::Bad { named: true, at }
}

#[test]
fn a_fork_is_loaded(rt: HostRuntime) -> Result<(), Fail> {
    assert!(rt; is_answered(rt.alloc(), FORK, 0, "", GIVEN)?);
    let wanted = given(loads(1, 0, 3, 0), 105, 0, 1);
    assert!(rt; is_answered(rt.alloc(), FORK, 105, "", wanted)?);
    Ok(())
}

#[test]
fn blocks_that_wait_or_come_again_are_counted(rt: HostRuntime) -> Result<(), Fail> {
    let waiting = given(loads(2, 2, 1, 0), 1, 0, 2);
    assert!(rt; is_answered(rt.alloc(), ORPHANS, 0, "", waiting)?);
    let again = given(loads(2, 0, 0, 1), 2, 2, 0);
    assert!(rt; is_answered(rt.alloc(), AGAIN, 0, "", again)?);
    Ok(())
}

#[test]
fn what_does_not_fit_is_refused(rt: HostRuntime) -> Result<(), Fail> {
    let full = Answer::Full { len: 5, need: 1 };
    assert!(rt; is_answered(rt.alloc(), LONG, 0, "", full)?);
    let clash = Answer::Clash { named: true };
    assert!(rt; is_answered(rt.alloc(), OTHER_TYPE, 0, "", clash)?);
    Ok(())
}

#[test]
fn bad_files_are_named(rt: HostRuntime) -> Result<(), Fail> {
    assert!(rt; is_answered(rt.alloc(), EMPTY, 0, "merged/0000000000.dbin", bad_at(17))?);
    assert!(rt; is_answered(rt.alloc(), MISNAMED, 0, "one/x.dbin", bad_at(0))?);
    Ok(())
}

/// How many calls of the shelf a load of the fork takes: one for the layout, three lists of names, and
/// two for each file.
const CALLS: u64 = 10;

/// A shelf with the fork whose call of this number fails.
fn failing_shelf(alloc: Global, call: u64) -> Result<FailingShelf<MemoryShelf>, Fail> {
    let shelf = shelf_of(alloc, FORK)?;
    let fails = Vec::from_slice(alloc, &[call])?;
    Ok(FailingShelf::new(shelf, fails))
}

fn answer_on(alloc: Global, shelf: &mut FailingShelf<MemoryShelf>) -> Result<Answer, Fail> {
    let filled = fill_failing(alloc, ROOM, shelf)?;
    Ok(answer_of(&filled.relay, &filled.answer, ""))
}

/// Whether a first load is refused, and a second one gives what one alone gives.
fn is_loaded_twice(alloc: Global, shelf: &mut FailingShelf<MemoryShelf>) -> Result<bool, Fail> {
    let first = answer_on(alloc, shelf)?;
    let second = answer_on(alloc, shelf)?;
    Ok(first == Answer::Failed && second == GIVEN)
}

/// Whether the files of the fork are as they were.
fn is_left_alone(alloc: Global, shelf: &MemoryShelf) -> Result<bool, Fail> {
    let whole = shelf_of(alloc, FORK)?;
    let alike = are_alike(alloc, shelf, &whole, FORK)?;
    Ok(alike)
}

/// Whether a load of the fork whose call of this number fails is refused, another one gives what one
/// alone gives, and the files are left.
fn is_made_good(alloc: Global, call: u64) -> Result<bool, Fail> {
    let mut shelf = failing_shelf(alloc, call)?;
    let good = is_loaded_twice(alloc, &mut shelf)?;
    let left = is_left_alone(alloc, shelf.inner())?;
    Ok(good && left)
}

#[test]
fn a_failed_load_is_made_good(rt: HostRuntime) -> Result<(), Fail> {
    for call in 0..CALLS {
        assert!(rt; is_made_good(rt.alloc(), call)?);
    }
    Ok(())
}

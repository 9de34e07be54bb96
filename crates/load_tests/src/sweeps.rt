//! Sweeps of which one call fails.

use crate::files::is_there;
use crate::runs::{Form, run_until};
use block_relay::Relay;
use memory_world::{FailingShelf, MemoryShelf};
use one_block::StoreFault;
use shelf_load::sweep_all;
use std::alloc::Global;
use std::test::Fail;

const PLAIN: Form = Form {
    forks: false,
    wide: false,
};

/// Two blocks of the first bundle, and one that makes it due.
const NUMS: [u64; 3] = [1, 2, 105];

/// How many calls the three blocks take, each of which is looked for, staged and put in place, and the
/// bundle of two.
const MERGED_CALLS: u64 = 3 * 3 + 4;

/// How many calls a sweep of their files takes: a list of names, two for each file, and one for each
/// that is removed.
const CALLS: u64 = 9;

/// The files of the two blocks that are stored.
const STORED: [&str; 2] = [
    "one/0000000001-19700101T000000.0-a1-a0-1-r1.dbin",
    "one/0000000002-19700101T000000.0-a2-a1-2-r1.dbin",
];

/// The file of the third block.
const THIRD: &str = "one/0000000105-19700101T000000.0-a105-a2-105-r1.dbin";

/// A relay, and a shelf of which a call fails.
#[derive(Drop)]
struct Store {
    relay: Relay,
    shelf: FailingShelf<MemoryShelf>,
}

/// What a sweep answers, how many files of stored blocks are there after it, and whether that of the
/// third block is.
#[derive(Clone, Copy, PartialEq, Eq)]
struct Swept {
    answer: Answer,
    stored: u64,
    third: bool,
}

/// What a sweep answers: how many files it removed, or why it was refused.
#[derive(Clone, Copy, PartialEq, Eq)]
enum Answer {
    Sweeps(u64),
    Failed,
    Other,
}

/// What a run leaves that takes the three blocks and writes the bundle, and does not sweep. The call of
/// this number fails.
fn merged_store(alloc: Global, call: u64) -> Result<Store, Fail> {
    let run = run_until(alloc, PLAIN, &NUMS, MERGED_CALLS)?;
    let fails = Vec::from_slice(alloc, &[call])?;
    Ok(Store {
        relay: run.relay,
        shelf: FailingShelf::new(run.shelf, fails),
    })
}

fn sweep(alloc: Global, store: &mut Store) -> Result<Swept, Fail> {
    let answer = sweep_answer(alloc, store);
    let swept = seen_after(alloc, answer, store.shelf.inner())?;
    Ok(swept)
}

fn sweep_answer(alloc: Global, store: &mut Store) -> Answer {
    match sweep_all(alloc, &store.relay, &mut store.shelf) {
        Ok(count) => Answer::Sweeps(count),
        Err(StoreFault::ShelfFault) => Answer::Failed,
        Err(_) => Answer::Other,
    }
}

fn seen_after(alloc: Global, answer: Answer, shelf: &MemoryShelf) -> Result<Swept, Fail> {
    let stored = count_there(alloc, shelf, &STORED)?;
    let third = is_there(alloc, shelf, THIRD)?;
    Ok(Swept {
        answer,
        stored,
        third,
    })
}

/// How many of these files are there.
fn count_there(alloc: Global, shelf: &MemoryShelf, names: &[&str]) -> Result<u64, Fail> {
    let mut count: u64 = 0;
    for name in names {
        if is_there(alloc, shelf, name)? {
            count = count.saturating_add(1);
        }
    }
    Ok(count)
}

/// Whether a sweep whose call of this number fails is refused with the files before that call removed,
/// and another one removes the others.
fn is_made_good(alloc: Global, call: u64) -> Result<bool, Fail> {
    let mut store = merged_store(alloc, call)?;
    let good = is_swept_twice(alloc, &mut store, stored_at(call))?;
    Ok(good)
}

/// Whether a first sweep fails and leaves so many files of stored blocks, and a second one removes
/// them.
fn is_swept_twice(alloc: Global, store: &mut Store, stored: u64) -> Result<bool, Fail> {
    let first = sweep(alloc, store)?;
    let second = sweep(alloc, store)?;
    Ok(first == failed_sweep(stored) && second == whole_sweep(stored))
}

/// A sweep that fails, and leaves so many files of stored blocks and the third.
fn failed_sweep(stored: u64) -> Swept {
    Swept {
        answer: Answer::Failed,
        stored,
        third: true,
    }
}

/// A sweep that removes so many files, and leaves the third alone.
fn whole_sweep(count: u64) -> Swept {
    Swept {
        answer: Answer::Sweeps(count),
        stored: 0,
        third: true,
    }
}

/// How many files of stored blocks are left where the call of this number fails: the last call for the
/// first of them has the number 3, and that for the second 6.
fn stored_at(call: u64) -> u64 {
    match call {
        0..4 => 2,
        4..7 => 1,
        _ => 0,
    }
}

#[test]
fn a_failed_sweep_is_made_good(rt: HostRuntime) -> Result<(), Fail> {
    for call in 0..CALLS {
        assert!(rt; is_made_good(rt.alloc(), call)?);
    }
    Ok(())
}

//! Runs that are stopped at each call of the shelf, and what is loaded then.

use crate::files::is_there;
use crate::relays::{Filled, fill};
use crate::runs::{Form, Run, run_until};
use block_record::Slip;
use block_relay::Relay;
use relay_look::tip_number;
use std::alloc::Global;
use std::test::Fail;

/// How blocks are taken, their numbers, and how many calls of the shelf a whole run takes.
#[derive(Clone, Copy)]
struct Case {
    form: Form,
    nums: [u64; 8],
    calls: u64,
}

/// A chain. Eight blocks take three calls each, a bundle of four takes six and one of three five, and a
/// sweep takes one, two for each block, and one for each of the seven that are stored.
const CHAIN: Case = Case {
    form: Form {
        forks: false,
        wide: false,
    },
    nums: [1, 2, 50, 99, 100, 150, 199, 200],
    calls: 59,
};

/// The same with seven blocks beside it: 15 blocks take 45 calls, the bundles 11, the six forked blocks
/// that are stored three each, and the sweep 1, 30 and 13.
const FORKS: Case = Case {
    form: Form {
        forks: true,
        wide: false,
    },
    nums: [1, 2, 50, 99, 100, 150, 199, 200],
    calls: 118,
};

/// The first with each bundle ten times as wide.
const WIDE: Case = Case {
    form: Form {
        forks: false,
        wide: true,
    },
    nums: [1, 2, 500, 999, 1_000, 1_500, 1_999, 2_000],
    calls: 59,
};

/// The room of the histories.
const ROOM: u64 = 300;

/// What a run left, and what was loaded of its shelf.
#[derive(Drop)]
struct Stop {
    ended: bool,
    old: Relay,
    filled: Filled,
    bundle: bool,
}

/// Runs a chain that stops after so many calls, and loads what that leaves.
fn stop_at(alloc: Global, form: Form, nums: &[u64], calls: u64) -> Result<Stop, Fail> {
    let run = run_until(alloc, form, nums, calls)?;
    let stop = load_again(alloc, run)?;
    Ok(stop)
}

fn load_again(alloc: Global, run: Run) -> Result<Stop, Fail> {
    let Run {
        relay: old,
        mut shelf,
        ended,
    } = run;
    let bundle = is_there(alloc, &shelf, "merged/0000000000.dbin")?;
    let filled = fill(alloc, 0, ROOM, &mut shelf)?;
    Ok(Stop {
        ended,
        old,
        filled,
        bundle,
    })
}

/// Whether a run that stops after so many calls ends exactly where those are all, and what it leaves
/// is loaded with each block of its history.
fn is_kept(alloc: Global, case: &Case, calls: u64) -> Result<bool, Fail> {
    let stop = stop_at(alloc, case.form, &case.nums, calls)?;
    Ok(stop.ended == (calls == case.calls) && is_loaded_whole(&stop))
}

fn is_loaded_whole(stop: &Stop) -> bool {
    stop.filled.answer.is_ok() && is_front(&stop.old, &stop.filled.relay)
}

/// Whether each block of a history is in another, and the final path of the one is a front of that of
/// the other.
fn is_front(old: &Relay, new: &Relay) -> bool {
    for place in 0..old.len() {
        if !is_there_again(old.slip(place as usize), new) || !is_final_again(place, old, new) {
            return false;
        }
    }
    true
}

fn is_there_again(slip: &Slip, new: &Relay) -> bool {
    match new.history().find_slip(&slip.id) {
        Some(found) => *found == *slip,
        None => false,
    }
}

/// Whether the final paths have one block at this depth, if that of the old history is so long.
fn is_final_again(depth: u64, old: &Relay, new: &Relay) -> bool {
    match (final_slip(old, depth), final_slip(new, depth)) {
        (Some(slip), Some(found)) => *found == *slip,
        (Some(_), None) => false,
        (None, _) => true,
    }
}

/// The block of the final path at this depth.
fn final_slip(relay: &Relay, depth: u64) -> Option<&Slip> {
    let tip = relay.history().final_tip()?;
    let place = relay.history().ancestor_at(tip, depth)?;
    Some(relay.slip(place))
}

/// Whether nothing is lost wherever a run stops.
fn is_always_kept(alloc: Global, case: &Case) -> Result<bool, Fail> {
    for calls in 0..=case.calls {
        if !is_kept(alloc, case, calls)? {
            return Ok(false);
        }
    }
    Ok(true)
}

#[test]
fn nothing_is_lost_at_any_stop(rt: HostRuntime) -> Result<(), Fail> {
    for case in [CHAIN, FORKS, WIDE] {
        assert!(rt; is_always_kept(rt.alloc(), &case)?);
    }
    Ok(())
}

/// How many calls 199 blocks take, each of which is looked for, staged and put in place, and the bundle
/// of the first 99.
const MERGED_CALLS: u64 = 199 * 3 + 101;

/// What a stop right after the first bundle was written leaves: the numbers of the final tip and of the
/// head after a load.
#[derive(Clone, Copy, PartialEq, Eq)]
struct Left {
    ended: bool,
    bundle: bool,
    loaded: bool,
    tip: u64,
    head: Option<u64>,
}

fn left_by(stop: &Stop) -> Left {
    let relay = &stop.filled.relay;
    Left {
        ended: stop.ended,
        bundle: stop.bundle,
        loaded: stop.filled.answer.is_ok(),
        tip: tip_number(relay.history()),
        head: head_number(relay),
    }
}

fn head_number(relay: &Relay) -> Option<u64> {
    let head = relay.history().head()?;
    Some(relay.slip(head).num)
}

/// The numbers from 1 to 199.
fn many_numbers(alloc: Global) -> Result<Vec<u64>, Fail> {
    let mut nums = Vec::new(alloc);
    for num in 1..200 {
        nums.push(num)?;
    }
    Ok(nums)
}

/// A stop of 199 blocks right after the first bundle was written.
fn stop_after_merge(alloc: Global) -> Result<Left, Fail> {
    let nums = many_numbers(alloc)?;
    let stop = stop_at(alloc, CHAIN.form, nums.as_slice(), MERGED_CALLS)?;
    Ok(left_by(&stop))
}

#[test]
fn a_stop_after_a_merge_loses_nothing(rt: HostRuntime) -> Result<(), Fail> {
    let wanted = Left {
        ended: false,
        bundle: true,
        loaded: true,
        tip: 199,
        head: Some(199),
    };
    assert!(rt; stop_after_merge(rt.alloc())? == wanted);
    Ok(())
}

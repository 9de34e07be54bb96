//! A fork that is merged, and merges of it that stop at each call of the shelf.

use crate::blocks::FORK;
use crate::plants::{MergeAnswer, Plant};
use std::alloc::Global;
use std::test::Fail;

/// The file of the block off the final path.
const OFF: &str = "forked/0000000002-b2.dbin";

const BUNDLE: &str = "merged/0000000000.dbin";

/// The container of type `test.Block` with record 2 of b2.
const OFF_TEXT: &[u8] =
    b"dbin\x01\0\x0atest.Block\0\0\0\x4c\x02\0\0\0\0\0\0\0\x02\0\0\0\0\0\0\0\x01\0\0\0\0\0\0\0\x01\0\0\0\0\0\0\0\0\x02b2\x02a1\0\0\0\x011\x6b\x86\xb2\x73\xff\x34\xfc\xe1\x9d\x6b\x80\x4e\xff\x5a\x3f\x57\x47\xad\xa4\xea\xa2\x2f\x1d\x49\xc0\x1e\x52\xdd\xb7\x87\x5b\x4b";

/// The same with those of a1 and c2.
const BUNDLE_TEXT: &[u8] =
    b"dbin\x01\0\x0atest.Block\0\0\0\x4c\x02\0\0\0\0\0\0\0\x01\0\0\0\0\0\0\0\0\0\0\0\0\0\0\0\0\0\0\0\0\0\0\0\0\x02a1\x02a0\0\0\0\x011\x6b\x86\xb2\x73\xff\x34\xfc\xe1\x9d\x6b\x80\x4e\xff\x5a\x3f\x57\x47\xad\xa4\xea\xa2\x2f\x1d\x49\xc0\x1e\x52\xdd\xb7\x87\x5b\x4b\0\0\0\x4c\x02\0\0\0\0\0\0\0\x02\0\0\0\0\0\0\0\x01\0\0\0\0\0\0\0\x02\0\0\0\0\0\0\0\0\x02c2\x02a1\0\0\0\x011\x6b\x86\xb2\x73\xff\x34\xfc\xe1\x9d\x6b\x80\x4e\xff\x5a\x3f\x57\x47\xad\xa4\xea\xa2\x2f\x1d\x49\xc0\x1e\x52\xdd\xb7\x87\x5b\x4b";

pub const MERGED: MergeAnswer = MergeAnswer::Merged {
    bundles: 1,
    stored: 2,
    retained: 1,
};

/// Whether a merge of the fork has its answer and its files, and of the blocks the last one alone has its
/// payload then.
fn is_merged(alloc: Global, plant: &mut Plant) -> Result<bool, Fail> {
    let answer = plant.merge(alloc);
    let off = plant.text(alloc, OFF)?;
    let bundle = plant.text(alloc, BUNDLE)?;
    let is_stored = off == OFF_TEXT && bundle == BUNDLE_TEXT;
    Ok(answer == MERGED && is_stored && plant.holds_from(3))
}

/// Whether a merge is refused and sheds nothing, the file of the block off the final path is there or not,
/// and the bundle is not.
fn is_stopped(alloc: Global, plant: &mut Plant, has_off: bool) -> Result<bool, Fail> {
    let is_refused = plant.merge(alloc) == MergeAnswer::Failed && plant.holds_from(0);
    let off = plant.text(alloc, OFF)?;
    let bundle = plant.text(alloc, BUNDLE)?;
    Ok(is_refused && off.is_empty() != has_off && bundle.is_empty())
}

fn merges_fork(alloc: Global, plant: &mut Plant) -> Result<bool, Fail> {
    plant.admit_all(alloc, FORK)?;
    let is_merged = is_merged(alloc, plant)?;
    Ok(is_merged)
}

/// Whether the fork is merged as it is to.
fn is_fork_merged(alloc: Global) -> Result<bool, Fail> {
    let mut plant = Plant::new(alloc, false, None)?;
    let is_merged = merges_fork(alloc, &mut plant);
    plant.close();
    is_merged
}

#[test]
fn a_fork_is_merged(rt: HostRuntime) -> Result<(), Fail> {
    assert!(rt; is_fork_merged(rt.alloc())?);
    Ok(())
}

/// How many calls of the shelf a merge of the fork takes: the header, the block and the file off the final
/// path, and then the header, the two blocks and the file of the bundle.
pub const CALLS: u64 = 7;

/// How many of them stand before the bundle's.
const OFF_CALLS: u64 = 3;

/// Whether a merge that fails at this call leaves the files before it, and another merge leaves what one
/// that did not fail does.
fn merges_again(alloc: Global, plant: &mut Plant, call: u64) -> Result<bool, Fail> {
    plant.admit_all(alloc, FORK)?;
    let is_stopped = is_stopped(alloc, plant, call >= OFF_CALLS)?;
    let is_merged = is_merged(alloc, plant)?;
    Ok(is_stopped && is_merged)
}

/// Whether a merge whose call of this number fails is made good by another one.
fn is_made_good(alloc: Global, call: u64) -> Result<bool, Fail> {
    let mut plant = Plant::new(alloc, false, Some(call))?;
    let is_made_good = merges_again(alloc, &mut plant, call);
    plant.close();
    is_made_good
}

#[test]
fn a_merge_that_stops_is_made_good(rt: HostRuntime) -> Result<(), Fail> {
    for call in 0..CALLS {
        assert!(rt; is_made_good(rt.alloc(), call)?);
    }
    Ok(())
}

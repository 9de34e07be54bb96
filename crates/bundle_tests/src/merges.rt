//! Bundles that are due, written and shed.

use crate::plants::{MergeAnswer, Plant};
use std::alloc::Global;
use std::test::Fail;

/// A file by its name, and how many bytes it has: none where it is not there.
#[derive(Clone, Copy)]
struct FileSize {
    name: &'static str,
    bytes: usize,
}

/// What a merge is to answer, the place of the first block that then has its payload still, and the files.
struct Stage {
    answer: MergeAnswer,
    held_from: u64,
    files: &'static [FileSize],
}

/// The bundle of 1 to 99. The message of a block takes 80 bytes, and one more for each digit of its number
/// and of its parent's past the first: 9 of them take 80 bytes, one takes 81 and 89 take 82.
const FIRST: FileSize = FileSize {
    name: "merged/0000000000.dbin",
    bytes: 17 + 9 * 80 + 81 + 89 * 82,
};

const SECOND: &str = "merged/0000000100.dbin";

const AT_199: Stage = Stage {
    answer: MergeAnswer::Merged {
        bundles: 1,
        stored: 99,
        retained: 100,
    },
    held_from: 99,
    files: &[
        FIRST,
        FileSize {
            name: SECOND,
            bytes: 0,
        },
    ],
};

/// What a merge answers where nothing is due.
const IDLE: MergeAnswer = MergeAnswer::Merged {
    bundles: 0,
    stored: 99,
    retained: 100,
};

/// Of 100 to 199 one message takes 83 bytes, and 99 take 84.
const AT_200: Stage = Stage {
    answer: MergeAnswer::Merged {
        bundles: 1,
        stored: 199,
        retained: 1,
    },
    held_from: 199,
    files: &[
        FIRST,
        FileSize {
            name: SECOND,
            bytes: 17 + 83 + 99 * 84,
        },
    ],
};

/// Whether each of these files has its length.
fn have_sizes(alloc: Global, plant: &Plant, files: &[FileSize]) -> Result<bool, Fail> {
    for file in files {
        let text = plant.text(alloc, file.name)?;
        if text.len() != file.bytes {
            return Ok(false);
        }
    }
    Ok(true)
}

/// Whether a merge has the answer and the files of a stage.
fn is_merged(alloc: Global, plant: &mut Plant, stage: &Stage) -> Result<bool, Fail> {
    let answer = plant.merge(alloc);
    let is_stored = have_sizes(alloc, plant, stage.files)?;
    Ok(answer == stage.answer && is_stored && plant.holds_from(stage.held_from))
}

/// Whether a chain of 199 blocks, each final at once, is merged, and then no call of the shelf is made.
fn merges_first(alloc: Global, plant: &mut Plant) -> Result<bool, Fail> {
    for num in 1..200 {
        plant.admit_chain(alloc, num, num - 1)?;
    }
    let is_merged = is_merged(alloc, plant, &AT_199)?;
    let idle = plant.merge_broken(alloc)?;
    Ok(is_merged && idle == IDLE)
}

fn merges_second(alloc: Global, plant: &mut Plant) -> Result<bool, Fail> {
    plant.admit_chain(alloc, 200, 199)?;
    let is_merged = is_merged(alloc, plant, &AT_200)?;
    Ok(is_merged)
}

/// Whether both bundles are merged as they are to.
fn merges_both(alloc: Global, plant: &mut Plant) -> Result<bool, Fail> {
    let first = merges_first(alloc, plant)?;
    let second = merges_second(alloc, plant)?;
    Ok(first && second)
}

fn are_merged(alloc: Global) -> Result<bool, Fail> {
    let mut plant = Plant::new(alloc, false, None)?;
    let are_merged = merges_both(alloc, &mut plant);
    plant.close();
    are_merged
}

#[test]
fn a_full_bundle_is_written_once(rt: HostRuntime) -> Result<(), Fail> {
    assert!(rt; are_merged(rt.alloc())?);
    Ok(())
}

/// A chain of final blocks with these numbers, the size of its bundles, and what its merge leaves.
struct Sparse {
    wide: bool,
    nums: &'static [u64],
    stage: &'static Stage,
}

/// Whether the chain's merge has its answer and its files.
fn merges_sparse(alloc: Global, plant: &mut Plant, sparse: &Sparse) -> Result<bool, Fail> {
    let mut parent = 0;
    for num in sparse.nums {
        plant.admit_chain(alloc, *num, parent)?;
        parent = *num;
    }
    let is_merged = is_merged(alloc, plant, sparse.stage)?;
    Ok(is_merged)
}

fn is_sparse(alloc: Global, sparse: &Sparse) -> Result<bool, Fail> {
    let mut plant = Plant::new(alloc, sparse.wide, None)?;
    let is_sparse = merges_sparse(alloc, &mut plant, sparse);
    plant.close();
    is_sparse
}

/// The numbers from 100 to 299 have no block.
const USUAL: Sparse = Sparse {
    wide: false,
    nums: &[1, 2, 305],
    stage: &Stage {
        answer: MergeAnswer::Merged {
            bundles: 1,
            stored: 2,
            retained: 1,
        },
        held_from: 2,
        files: &[
            FileSize {
                name: "merged/0000000000.dbin",
                bytes: 17 + 2 * 80,
            },
            FileSize {
                name: "merged/0000000100.dbin",
                bytes: 0,
            },
            FileSize {
                name: "merged/0000000200.dbin",
                bytes: 0,
            },
        ],
    },
};

#[test]
fn a_bundle_without_blocks_has_no_file(rt: HostRuntime) -> Result<(), Fail> {
    assert!(rt; is_sparse(rt.alloc(), &USUAL)?);
    Ok(())
}

const WIDE: Sparse = Sparse {
    wide: true,
    nums: &[5, 1_005, 2_010],
    stage: &Stage {
        answer: MergeAnswer::Merged {
            bundles: 2,
            stored: 2,
            retained: 1,
        },
        held_from: 2,
        files: &[
            FileSize {
                name: "merged1000/0000000000.dbin",
                bytes: 17 + 80,
            },
            FileSize {
                name: "merged1000/0000001000.dbin",
                bytes: 17 + 80 + 3,
            },
            FileSize {
                name: "merged1000/0000002000.dbin",
                bytes: 0,
            },
        ],
    },
};

#[test]
fn a_bundle_of_the_other_size_has_a_thousand_numbers(rt: HostRuntime) -> Result<(), Fail> {
    assert!(rt; is_sparse(rt.alloc(), &WIDE)?);
    Ok(())
}

//! Small folds, with answers worked out by hand from the rules.

use crate::ids::{id_of, reference_of};
use block_record::{BlockRef, Slip};
use chain_model::Step;
use client_fold::{FoldFault, Folder};
use std::alloc::Global;
use std::process::Abort;
use std::test::Fail;

/// A block's number and id, and its parent's number and id.
type Fields = (u64, &'static str, u64, &'static str);

const A1: Fields = (1, "a1", 0, "a0");

const B2: Fields = (2, "b2", 1, "a1");

const C2: Fields = (2, "c2", 1, "a1");

const C3: Fields = (3, "c3", 2, "b2");

/// A block with the id of another's parent, and another number there.
const SKIPPED_D3: Fields = (3, "d3", 1, "b2");

fn slip(alloc: Global, (num, name, parent_num, parent_name): Fields) -> Result<Slip, Fail> {
    Ok(Slip {
        num,
        id: id_of(alloc, name)?,
        parent_num,
        parent_id: id_of(alloc, parent_name)?,
        lib_num: 0,
        time: 0,
        length: 0,
        digest: [0; 32],
    })
}

/// Steps with their blocks, the index of the first that is refused, the ids of the path then, and how
/// many of its blocks are final.
type Case = (
    &'static [(Step, Fields)],
    Option<u64>,
    &'static [&'static str],
    u64,
);

const WITHOUT_BASE: &[Case] = &[
    (&[], None, &[], 0),
    (
        &[(Step::NewFinal, A1), (Step::New, B2), (Step::Undo, B2)],
        None,
        &["a1"],
        1,
    ),
    (
        &[
            (Step::NewFinal, A1),
            (Step::New, B2),
            (Step::Undo, B2),
            (Step::Undo, A1),
        ],
        Some(3),
        &["a1"],
        1,
    ),
    (
        &[
            (Step::NewFinal, A1),
            (Step::New, B2),
            (Step::Final, B2),
            (Step::New, C3),
        ],
        None,
        &["a1", "b2", "c3"],
        2,
    ),
    (
        &[(Step::NewFinal, A1), (Step::New, B2), (Step::Undo, C2)],
        Some(2),
        &["a1", "b2"],
        1,
    ),
    (
        &[(Step::NewFinal, A1), (Step::New, B2), (Step::NewFinal, C3)],
        Some(2),
        &["a1", "b2"],
        1,
    ),
    (
        &[
            (Step::NewFinal, A1),
            (Step::New, B2),
            (Step::New, SKIPPED_D3),
        ],
        Some(2),
        &["a1", "b2"],
        1,
    ),
    (
        &[(Step::NewFinal, A1), (Step::New, B2), (Step::New, C2)],
        Some(2),
        &["a1", "b2"],
        1,
    ),
    (
        &[(Step::New, A1), (Step::New, B2), (Step::Final, B2)],
        Some(2),
        &["a1", "b2"],
        0,
    ),
    (
        &[
            (Step::New, A1),
            (Step::New, B2),
            (Step::Final, A1),
            (Step::Undo, B2),
            (Step::NewFinal, C2),
        ],
        None,
        &["a1", "c2"],
        2,
    ),
    (&[(Step::Final, A1)], Some(0), &[], 0),
    (&[(Step::Undo, A1)], Some(0), &[], 0),
];

const AFTER_A1: &[Case] = &[
    (&[(Step::New, B2), (Step::Final, B2)], None, &["b2"], 1),
    (&[(Step::NewFinal, C2)], None, &["c2"], 1),
    (&[(Step::New, C3)], Some(0), &[], 0),
    (
        &[(Step::New, B2), (Step::Undo, B2), (Step::Undo, A1)],
        Some(2),
        &[],
        0,
    ),
    (
        &[(Step::New, B2), (Step::Undo, B2), (Step::NewFinal, C2)],
        None,
        &["c2"],
        1,
    ),
];

/// The index of the first step that is refused. Those before it are taken.
fn fold(alloc: Global, folder: &mut Folder, steps: &[(Step, Fields)]) -> Result<Option<u64>, Fail> {
    for (step, fields) in steps {
        let block = slip(alloc, *fields)?;
        match folder.apply(*step, &block) {
            Ok(()) => {}
            Err(FoldFault::Illegal { at }) => return Ok(Some(at)),
            Err(FoldFault::Mem) => return Err(Fail::from("no memory")),
        }
    }
    Ok(None)
}

fn check(rt: &impl Abort, alloc: Global, base: Option<BlockRef>, case: &Case) -> Result<(), Fail> {
    let (steps, refused, ids, finals) = *case;
    let mut folder = Folder::new(alloc, base);
    let found = fold(alloc, &mut folder, steps)?;
    assert!(rt; found == refused, "{steps:?} is refused at {found:?}");
    let path = folder.path();
    assert!(rt;
        path.len() == ids.len(),
        "the length of the path after {steps:?}"
    );
    for (block, id) in path.iter().zip(ids) {
        assert!(rt;
            block.id.as_bytes() == id.as_bytes(),
            "the path after {steps:?}"
        );
    }
    assert!(rt;
        folder.finals() == finals,
        "the final blocks after {steps:?}"
    );
    Ok(())
}

#[test]
fn steps_are_taken_up_to_the_first_that_goes_on_from_nothing(rt: HostRuntime) -> Result<(), Fail> {
    let alloc = rt.alloc();
    for case in WITHOUT_BASE {
        check(&rt, alloc, None, case)?;
    }
    for case in AFTER_A1 {
        let base = reference_of(alloc, (1, "a1"))?;
        check(&rt, alloc, Some(base), case)?;
    }
    Ok(())
}

//! A small history with two branches, with answers worked out by hand.

ghost use Rattle.std.specs.Prelude.{◌≡◌, ◌<◌};

use crate::blocks::block_of;
use crate::follow::may_follow;
use crate::ids::id_of;
use block_record::{Slip, into_slip};
use block_tree::BlockTree;
use link_rows::Uncounted;
use std::alloc::{AllocError, Global};
use std::process::Abort;
use std::test::Fail;

/// A block's number and id, and its parent's number and id.
type Fields = (u64, &'static str, u64, &'static str);

/// The branch of b4 at the places 1 to 3, that of c7 at the places 4 and 5.
const FORK: &[Fields] = &[
    (1, "a1", 0, "a0"),
    (2, "b2", 1, "a1"),
    (3, "b3", 2, "b2"),
    (4, "b4", 3, "b3"),
    (2, "c2", 1, "a1"),
    (7, "c7", 2, "c2"),
];

const PLACES: &[(&str, Option<usize>)] = &[
    ("a1", Some(0)),
    ("b2", Some(1)),
    ("c2", Some(4)),
    ("c7", Some(5)),
    ("a0", None),
    ("b", None),
];

#[test]
fn blocks_are_found_by_their_ids(rt: HostRuntime) -> Result<(), Fail> {
    let alloc = rt.alloc();
    let tree = tree_of(&rt, alloc, FORK)?;
    assert_eq!(rt; tree.len(), 6);
    for (text, wanted) in PLACES {
        let id = id_of(&rt, alloc, text)?;
        assert_eq!(rt; tree.find(&id), *wanted, "{text}");
        assert_eq!(rt; tree.find_slip(&id).is_some(), wanted.is_some(), "{text}");
    }
    for (at, (num, text, ..)) in FORK.iter().enumerate() {
        assert!(rt; at < tree.len());
        let slip = tree.slip(at);
        assert_eq!(rt; slip.num, *num);
        assert_eq!(rt; slip.id.as_bytes(), text.as_bytes());
    }
    Ok(())
}

/// A call along the paths of a history.
#[derive(Clone, Copy, Debug)]
enum Call {
    Depth { at: usize },
    Meet { a: usize, b: usize },
    Up { at: usize, depth: u64 },
    LastUpTo { at: usize, limit: u64 },
}

use Call::{Depth, LastUpTo, Meet, Up};

const CASES: &[(Call, Option<usize>)] = &[
    (Depth { at: 0 }, Some(0)),
    (Depth { at: 3 }, Some(3)),
    (Depth { at: 4 }, Some(1)),
    (Depth { at: 5 }, Some(2)),
    (Meet { a: 3, b: 5 }, Some(0)),
    (Meet { a: 3, b: 1 }, Some(1)),
    (Meet { a: 2, b: 3 }, Some(2)),
    (Meet { a: 4, b: 4 }, Some(4)),
    (Up { at: 3, depth: 0 }, Some(0)),
    (Up { at: 3, depth: 2 }, Some(2)),
    (Up { at: 3, depth: 3 }, Some(3)),
    (Up { at: 3, depth: 4 }, None),
    (Up { at: 5, depth: 1 }, Some(4)),
    (
        Up {
            at: 5,
            depth: u64::MAX,
        },
        None,
    ),
    // By number: numbers are skipped after c2, and none is below the first block's.
    (LastUpTo { at: 3, limit: 0 }, None),
    (LastUpTo { at: 3, limit: 1 }, Some(0)),
    (LastUpTo { at: 3, limit: 3 }, Some(2)),
    (LastUpTo { at: 3, limit: 4 }, Some(3)),
    (LastUpTo { at: 3, limit: 99 }, Some(3)),
    (LastUpTo { at: 5, limit: 2 }, Some(4)),
    (LastUpTo { at: 5, limit: 6 }, Some(4)),
    (LastUpTo { at: 5, limit: 7 }, Some(5)),
];

#[test]
fn paths_answer_as_by_hand(rt: HostRuntime) -> Result<(), Fail> {
    let tree = tree_of(&rt, rt.alloc(), FORK)?;
    for (call, wanted) in CASES {
        assert_eq!(rt; answer(&rt, &tree, *call), *wanted);
    }
    for (a, b, wanted) in ON_PATH {
        assert!(rt; *a < tree.len());
        assert!(rt; *b < tree.len());
        assert_eq!(rt; tree.on_path(*a, *b, &mut Uncounted), *wanted);
    }
    Ok(())
}

fn answer(rt: &impl Abort, tree: &BlockTree, call: Call) -> Option<usize> {
    match call {
        Depth { at } => {
            assert!(rt; at < tree.len());
            Some(tree.depth(at) as usize)
        }
        Meet { a, b } => {
            assert!(rt; a < tree.len());
            assert!(rt; b < tree.len());
            Some(tree.meet(a, b, &mut Uncounted))
        }
        Up { at, depth } => {
            assert!(rt; at < tree.len());
            tree.up(at, depth, &mut Uncounted)
        }
        LastUpTo { at, limit } => {
            assert!(rt; at < tree.len());
            tree.last_up_to(at, limit, &mut Uncounted)
        }
    }
}

/// Whether the first block is on the path of the second.
const ON_PATH: &[(usize, usize, bool)] = &[
    (0, 5, true),
    (1, 3, true),
    (3, 1, false),
    (4, 3, false),
    (1, 5, false),
    (5, 5, true),
    (4, 5, true),
    (2, 4, false),
];

#[test]
fn room_is_taken_once_and_used_by_each_block(rt: HostRuntime) -> Result<(), Fail> {
    let alloc = rt.alloc();
    let mut tree = BlockTree::new(alloc);
    tree.reserve(6)?;
    assert_eq!(rt; tree.room(), 6);
    tree.reserve(3)?;
    assert_eq!(rt; tree.room(), 6);
    push_all(&rt, alloc, &mut tree, FORK)?;
    assert_eq!(rt; (tree.len(), tree.room()), (6, 0));
    Ok(())
}

fn tree_of(rt: &impl Abort, alloc: Global, rows: &[Fields]) -> Result<BlockTree, AllocError> {
    let mut tree = BlockTree::new(alloc);
    tree.reserve(rows.len() as u64)?;
    push_all(rt, alloc, &mut tree, rows)?;
    Ok(tree)
}

fn push_all(
    rt: &impl Abort,
    alloc: Global,
    tree: &mut BlockTree,
    rows: &[Fields],
) -> Result<(), AllocError> {
    for fields in rows {
        let slip = slip_of(rt, alloc, *fields)?;
        assert!(rt; 0 < tree.room());
        assert!(rt; may_follow(tree, &slip));
        let at = tree.len();
        let parent = tree.find(&slip.parent_id);
        assert_eq!(rt; tree.push(slip, parent), at);
    }
    Ok(())
}

fn slip_of(
    rt: &impl Abort,
    alloc: Global,
    (num, id, parent_num, parent_id): Fields,
) -> Result<Slip, AllocError> {
    let block = block_of(alloc, (num, id, parent_num, parent_id, 0))?;
    Ok(into_slip(block.expect(rt, "a block")))
}

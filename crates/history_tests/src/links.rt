//! Small trees, with answers worked out by hand, and one that is deep.

ghost use Rattle.std.specs.Prelude.{◌≡◌, ◌<◌, ◌+◌, ◌*◌, ◌^◌, ◌≤◌, ℕ, length, IsTrue};
ghost use Rattle.link_rows.specs.Tree.{IsNext};

use link_rows::{LinkCount, LinkRows, Steps, Uncounted, digits};
use std::alloc::{AllocError, Global};
use std::marker::Brand;
use std::process::Abort;
use std::sync::ledger::{Blank, Ledger};
use std::test::Fail;

/// The parents of the places, the first place's first.
type Parents = &'static [Option<usize>];

const ONE: Parents = &[None];

/// Two branches from place 1, of two places each, and one from the first place.
const FORK: Parents = &[None, Some(0), Some(1), Some(2), Some(1), Some(4), Some(0)];

const CHAIN: Parents = &[
    None,
    Some(0),
    Some(1),
    Some(2),
    Some(3),
    Some(4),
    Some(5),
    Some(6),
];

/// A call on a tree.
#[derive(Clone, Copy, Debug)]
enum Call {
    Depth { at: usize },
    Link { at: usize, k: u32 },
    Up { at: usize, depth: u64 },
    Meet { a: usize, b: usize },
}

use Call::{Depth, Link, Meet, Up};

const CASES: &[(Parents, Call, Option<usize>)] = &[
    (ONE, Depth { at: 0 }, Some(0)),
    (ONE, Link { at: 0, k: 0 }, None),
    (ONE, Up { at: 0, depth: 0 }, Some(0)),
    (ONE, Meet { a: 0, b: 0 }, Some(0)),
    (FORK, Depth { at: 0 }, Some(0)),
    (FORK, Depth { at: 3 }, Some(3)),
    (FORK, Depth { at: 4 }, Some(2)),
    (FORK, Depth { at: 6 }, Some(1)),
    (FORK, Link { at: 5, k: 0 }, Some(4)),
    (FORK, Link { at: 5, k: 1 }, Some(1)),
    (FORK, Link { at: 5, k: 2 }, None),
    (FORK, Link { at: 6, k: 0 }, Some(0)),
    (FORK, Link { at: 6, k: 1 }, None),
    (FORK, Up { at: 5, depth: 0 }, Some(0)),
    (FORK, Up { at: 5, depth: 1 }, Some(1)),
    (FORK, Up { at: 5, depth: 2 }, Some(4)),
    (FORK, Up { at: 5, depth: 3 }, Some(5)),
    (FORK, Meet { a: 3, b: 5 }, Some(1)),
    (FORK, Meet { a: 4, b: 3 }, Some(1)),
    (FORK, Meet { a: 5, b: 4 }, Some(4)),
    (FORK, Meet { a: 3, b: 3 }, Some(3)),
    (FORK, Meet { a: 6, b: 3 }, Some(0)),
    (CHAIN, Depth { at: 7 }, Some(7)),
    (CHAIN, Link { at: 7, k: 0 }, Some(6)),
    (CHAIN, Link { at: 7, k: 1 }, Some(5)),
    (CHAIN, Link { at: 7, k: 2 }, Some(3)),
    (CHAIN, Link { at: 7, k: 3 }, None),
    (CHAIN, Link { at: 7, k: 64 }, None),
    (CHAIN, Up { at: 7, depth: 4 }, Some(4)),
    (CHAIN, Up { at: 6, depth: 1 }, Some(1)),
    (CHAIN, Meet { a: 7, b: 3 }, Some(3)),
    (CHAIN, Meet { a: 0, b: 7 }, Some(0)),
];

#[test]
fn small_trees_answer_as_by_hand(rt: HostRuntime) -> Result<(), Fail> {
    for (parents, call, wanted) in CASES {
        let rows = tree_of(&rt, rt.alloc(), parents)?;
        assert_eq!(rt; answer(&rt, &rows, *call, &mut Uncounted), *wanted);
    }
    Ok(())
}

fn answer<C: LinkCount>(
    rt: &impl Abort,
    rows: &LinkRows,
    call: Call,
    links: &mut C,
) -> Option<usize> {
    match call {
        Depth { at } => {
            assert!(rt; at < rows.len());
            Some(rows.depth(at) as usize)
        }
        Link { at, k } => {
            assert!(rt; at < rows.len());
            rows.link(at, k, links)
        }
        Up { at, depth } => {
            assert!(rt; at < rows.len());
            assert!(rt; depth <= rows.depth(at));
            Some(rows.up(at, depth, links))
        }
        Meet { a, b } => {
            assert!(rt; a < rows.len());
            assert!(rt; b < rows.len());
            Some(rows.meet(a, b, links))
        }
    }
}

fn tree_of(
    rt: &impl Abort,
    alloc: Global,
    parents: &[Option<usize>],
) -> Result<LinkRows, AllocError> {
    let mut rows = LinkRows::new(alloc);
    for parent in parents {
        rows.reserve(1)?;
        push_next(rt, &mut rows, *parent);
    }
    Ok(rows)
}

fn push_next(rt: &impl Abort, rows: &mut LinkRows, parent: Option<usize>)
    requires { 0 < rows.old.room }
    ensures { rows.new.room + 1 ≡ rows.old.room }
{
    assert!(rt; may_follow(rows, parent));
    rows.push(parent);
}

/// Whether a place with this parent may come next.
fn may_follow(rows: &LinkRows, parent: Option<usize>) -> bool
    ensures { IsTrue result → IsNext rows.now.parents parent }
{
    match parent {
        Some(parent) => parent < rows.len(),
        None => rows.len() == 0,
    }
}

/// What a chain of 1,000 places answers that has from its place 500 a branch of 1,000 more.
const DEEP: &[(Call, Option<usize>)] = &[
    (Depth { at: 999 }, Some(999)),
    (Depth { at: 1000 }, Some(501)),
    (Depth { at: 1999 }, Some(1500)),
    (Link { at: 999, k: 9 }, Some(487)),
    (Link { at: 999, k: 10 }, None),
    (Link { at: 1999, k: 9 }, Some(1487)),
    (Link { at: 1999, k: 10 }, Some(476)),
    (Up { at: 1999, depth: 0 }, Some(0)),
    (
        Up {
            at: 1999,
            depth: 500,
        },
        Some(500),
    ),
    (
        Up {
            at: 1999,
            depth: 501,
        },
        Some(1000),
    ),
    (
        Up {
            at: 1999,
            depth: 1000,
        },
        Some(1499),
    ),
    (
        Up {
            at: 1999,
            depth: 1500,
        },
        Some(1999),
    ),
    (Meet { a: 999, b: 1999 }, Some(500)),
    (Meet { a: 1999, b: 501 }, Some(500)),
    (Meet { a: 499, b: 1999 }, Some(499)),
    (Meet { a: 1500, b: 1999 }, Some(1500)),
];

#[test]
fn a_chain_and_its_branch_take_their_room_once(rt: HostRuntime) -> Result<(), Fail> {
    let mut rows = LinkRows::new(rt.alloc());
    rows.reserve(2000)?;
    push_branches(&rt, &mut rows);
    run_deep::<Brand>(&rt, &rows, Blank::new(1));
    Ok(())
}

fn push_branches(rt: &impl Abort, rows: &mut LinkRows)
    requires { 2000 ≤ rows.old.room }
{
    for at in 0..2000 {
        push_next(rt, rows, parent_in_branches(at));
    }
}

/// The parent of a place in a chain of 1,000 places that has a branch from its place 500.
fn parent_in_branches(at: usize) -> Option<usize> {
    match at {
        1000 => Some(500),
        _ => at.checked_sub(1),
    }
}

fn run_deep<L: Ledger>(rt: &impl Abort, rows: &LinkRows, blank: Blank)
    requires name { blank.name ≡ L.name }
    requires parts { blank.parts ≡ L.parts }
    requires more { 0 < L.parts }
{
    let mut links = Steps::<L>::new(blank);
    for (call, wanted) in DEEP {
        assert_eq!(rt; answer(rt, rows, *call, &mut links), *wanted);
    }
}

/// What a caller with a counter gets of a link: exactly one more.
fn counted_link<L: Ledger>(
    rows: &LinkRows,
    at: usize,
    k: u32,
    links: &mut Steps<L>,
) -> Option<usize>
    requires { at < length rows.now.parents }
    ensures { links.new ≡ links.old + 1 }
{
    rows.link(at, k, links)
}

/// What a caller with a counter gets of a meeting: at most 1 + 3 d more.
fn counted_meeting<L: Ledger>(rows: &LinkRows, a: usize, b: usize, links: &mut Steps<L>) -> usize
    requires a_range { a < length rows.now.parents }
    requires b_range { b < length rows.now.parents }
    ensures { (d : ℕ) → length rows.now.parents < 2 ^ d → links.new ≤ links.old + 1 + 3 * d }
{
    rows.meet(a, b, links)
}

const DIGITS: &[(u64, u32)] = &[
    (0, 0),
    (1, 1),
    (2, 2),
    (3, 2),
    (4, 3),
    (255, 8),
    (256, 9),
    (u64::MAX, 64),
];

#[test]
fn numbers_have_their_binary_digits(rt: HostRuntime) {
    for (n, wanted) in DIGITS {
        assert_eq!(rt; digits(*n), *wanted);
    }
}

//! Small histories, with answers worked out by hand from the rules.

use crate::ids::{At, id_of, reference_at};
use block_record::{Id, Slip};
use chain_model::{
    Mode, Place, PlainStep, Step, ancestry_in, claim_of, contains_id, final_path_of, final_tip_of,
    head_of, place_to, plain_steps, root_number, target_of,
};
use std::alloc::{AllocError, Global};
use std::process::Abort;
use std::test::Fail;

/// A block's number and id, its parent's number and id, and its lib number.
type Fields = (u64, &'static str, u64, &'static str, u64);

const BLOCK_A1: Fields = (1, "a1", 0, "a0", 0);

const BLOCK_B2: Fields = (2, "b2", 1, "a1", 1);

const BLOCK_C3: Fields = (3, "c3", 2, "b2", 2);

const BLOCK_C2: Fields = (2, "c2", 1, "a1", 1);

const BLOCK_D3: Fields = (3, "d3", 2, "c2", 1);

const BLOCK_B3: Fields = (3, "b3", 2, "b2", 1);

const BLOCK_B4: Fields = (4, "b4", 3, "b3", 1);

const BLOCK_FINAL_C2: Fields = (2, "c2", 1, "a1", 2);

const BLOCK_E5: Fields = (5, "e5", 2, "b2", 4);

const CHAIN: &[Fields] = &[BLOCK_A1, BLOCK_B2, BLOCK_C3];

const TIE: &[Fields] = &[BLOCK_A1, BLOCK_B2, BLOCK_C2, BLOCK_D3];

const FORK: &[Fields] = &[BLOCK_A1, BLOCK_B2, BLOCK_B3, BLOCK_B4, BLOCK_FINAL_C2];

const SKIP: &[Fields] = &[BLOCK_A1, BLOCK_B2, BLOCK_E5];

/// The blocks of a place: its end and its lib.
type Pair = (At, At);

const NO_PLACE: Pair = (None, None);

const A1_A1: Pair = (Some((1, "a1")), Some((1, "a1")));

const B2_A1: Pair = (Some((2, "b2")), Some((1, "a1")));

const B2_B2: Pair = (Some((2, "b2")), Some((2, "b2")));

const C2_A1: Pair = (Some((2, "c2")), Some((1, "a1")));

const C2_C2: Pair = (Some((2, "c2")), Some((2, "c2")));

const C3_B2: Pair = (Some((3, "c3")), Some((2, "b2")));

const D3_A1: Pair = (Some((3, "d3")), Some((1, "a1")));

const B4_A1: Pair = (Some((4, "b4")), Some((1, "a1")));

const B4_C2: Pair = (Some((4, "b4")), Some((2, "c2")));

const E5_B2: Pair = (Some((5, "e5")), Some((2, "b2")));

/// What a client follows, and its stop.
type Wish = (Mode, Option<u64>);

const LIVE: Wish = (Mode::Live, None);

const FINAL: Wish = (Mode::Final, None);

const LIVE_TO_2: Wish = (Mode::Live, Some(2));

const LIVE_TO_4: Wish = (Mode::Live, Some(4));

const FINAL_TO_1: Wish = (Mode::Final, Some(1));

/// A history's first blocks, a place and a wish, and then the steps and the place they lead to.
type Case = (&'static [Fields], usize, Pair, Wish, &'static str, Pair);

const CASES: &[Case] = &[
    // Block after block, each client at the place where it was.
    (CHAIN, 0, NO_PLACE, LIVE, "", NO_PLACE),
    (CHAIN, 1, NO_PLACE, LIVE, "newfinal 1 a1", A1_A1),
    (CHAIN, 2, A1_A1, LIVE, "new 2 b2", B2_A1),
    (CHAIN, 3, B2_A1, LIVE, "final 2 b2, new 3 c3", C3_B2),
    (TIE, 3, B2_A1, LIVE, "", B2_A1),
    (TIE, 4, B2_A1, LIVE, "undo 2 b2, new 2 c2, new 3 d3", D3_A1),
    (FORK, 4, B2_A1, LIVE, "new 3 b3, new 4 b4", B4_A1),
    (
        FORK,
        5,
        B4_A1,
        LIVE,
        "undo 4 b4, undo 3 b3, undo 2 b2, newfinal 2 c2",
        C2_C2,
    ),
    (FORK, 5, C2_C2, LIVE, "", C2_C2),
    (SKIP, 3, B2_A1, LIVE, "final 2 b2, new 5 e5", E5_B2),
    // From the beginning.
    (
        CHAIN,
        3,
        NO_PLACE,
        LIVE,
        "newfinal 1 a1, newfinal 2 b2, new 3 c3",
        C3_B2,
    ),
    (
        TIE,
        4,
        NO_PLACE,
        LIVE,
        "newfinal 1 a1, new 2 c2, new 3 d3",
        D3_A1,
    ),
    (
        FORK,
        5,
        NO_PLACE,
        LIVE,
        "newfinal 1 a1, newfinal 2 c2",
        C2_C2,
    ),
    (
        SKIP,
        3,
        NO_PLACE,
        LIVE,
        "newfinal 1 a1, newfinal 2 b2, new 5 e5",
        E5_B2,
    ),
    // Up to a stop.
    (
        CHAIN,
        3,
        NO_PLACE,
        LIVE_TO_2,
        "newfinal 1 a1, newfinal 2 b2",
        B2_B2,
    ),
    (CHAIN, 3, B2_A1, LIVE_TO_2, "final 2 b2", B2_B2),
    (TIE, 4, A1_A1, LIVE_TO_2, "new 2 c2", C2_A1),
    (
        SKIP,
        3,
        NO_PLACE,
        LIVE_TO_4,
        "newfinal 1 a1, newfinal 2 b2",
        B2_B2,
    ),
    // Final blocks alone.
    (
        CHAIN,
        3,
        NO_PLACE,
        FINAL,
        "newfinal 1 a1, newfinal 2 b2",
        B2_B2,
    ),
    (CHAIN, 3, A1_A1, FINAL, "newfinal 2 b2", B2_B2),
    (TIE, 4, B2_A1, FINAL, "undo 2 b2", A1_A1),
    (SKIP, 3, NO_PLACE, FINAL_TO_1, "newfinal 1 a1", A1_A1),
    // From a place whose blocks the history does not have, and one whose lib is on another branch.
    (CHAIN, 2, C3_B2, LIVE, "newfinal 1 a1, new 2 b2", B2_A1),
    (
        FORK,
        5,
        B4_C2,
        LIVE,
        "undo 4 b4, undo 3 b3, undo 2 b2, newfinal 2 c2",
        C2_C2,
    ),
];

#[test]
fn steps_lead_from_a_place_to_the_target(rt: HostRuntime) -> Result<(), Fail> {
    for case in CASES {
        expect_case(&rt, rt.alloc(), *case)?;
    }
    Ok(())
}

fn expect_case(
    rt: &impl Abort,
    alloc: Global,
    (rows, len, from, (mode, stop), steps, to): Case,
) -> Result<(), Fail> {
    let history = history_of(alloc, rows, len)?;
    let place = place_of(alloc, from)?;
    let told = plain_steps(alloc, history.as_slice(), &place, mode, stop)?;
    expect_steps(rt, alloc, told.as_slice(), steps)?;
    let reached = place_to(alloc, history.as_slice(), &place, mode, stop)?;
    let wanted = place_of(alloc, to)?;
    assert_eq!(rt; reached, wanted);
    Ok(())
}

#[test]
fn a_late_final_block_rules_out_a_longer_branch(rt: HostRuntime) -> Result<(), Fail> {
    let alloc = rt.alloc();
    let blocks = history_of(alloc, FORK, 5)?;
    let history = blocks.as_slice();
    assert_eq!(rt; root_number(history), 1);
    let tip = final_tip_of(alloc, history)?;
    expect_path(&rt, alloc, tip.as_slice(), "2 c2")?;
    let head = head_of(alloc, history)?;
    expect_path(&rt, alloc, head.as_slice(), "2 c2")?;
    let finals = final_path_of(alloc, history)?;
    expect_path(&rt, alloc, finals.as_slice(), "2 c2, 1 a1")?;
    let target = target_of(alloc, history, Mode::Live, None)?;
    expect_path(&rt, alloc, target.as_slice(), "2 c2, 1 a1")?;
    let ruled_out = id_of(alloc, "b4")?;
    let path = ancestry_in(alloc, history, &ruled_out)?;
    expect_path(&rt, alloc, path.as_slice(), "4 b4, 3 b3, 2 b2, 1 a1")?;
    assert!(rt; contains_id(path.as_slice(), &ruled_out));
    assert!(rt; !contains_id(finals.as_slice(), &ruled_out));
    Ok(())
}

const CLAIMS: &[(&[Fields], &str)] = &[
    (CHAIN, "1 a1, 1 a1, 2 b2"),
    (TIE, "1 a1, 1 a1, 1 a1, 1 a1"),
    (FORK, "1 a1, 1 a1, 1 a1, 1 a1, 2 c2"),
    (SKIP, "1 a1, 1 a1, 2 b2"),
];

#[test]
fn each_block_claims_the_last_of_its_path_up_to_its_lib_number(
    rt: HostRuntime,
) -> Result<(), Fail> {
    let alloc = rt.alloc();
    for (rows, wanted) in CLAIMS {
        expect_claims(&rt, alloc, rows, wanted)?;
    }
    Ok(())
}

fn expect_claims(
    rt: &impl Abort,
    alloc: Global,
    rows: &[Fields],
    wanted: &str,
) -> Result<(), Fail> {
    let history = history_of(alloc, rows, rows.len())?;
    let mut claims = Vec::new(alloc);
    for block in &history {
        if let Some(claim) = claim_of(alloc, history.as_slice(), block)? {
            claims.push(claim)?;
        }
    }
    expect_path(rt, alloc, claims.as_slice(), wanted)?;
    Ok(())
}

fn history_of(alloc: Global, rows: &[Fields], len: usize) -> Result<Vec<Slip>, Fail> {
    let mut history = Vec::new(alloc);
    for (num, id, parent_num, parent_id, lib_num) in rows.iter().take(len) {
        history.push(Slip {
            num: *num,
            id: id_of(alloc, id)?,
            parent_num: *parent_num,
            parent_id: id_of(alloc, parent_id)?,
            lib_num: *lib_num,
            time: 0,
            length: 1,
            digest: [0; 32],
        })?;
    }
    Ok(history)
}

fn place_of(alloc: Global, (end, lib): Pair) -> Result<Place, Fail> {
    let end = reference_at(alloc, end)?;
    let lib = reference_at(alloc, lib)?;
    Ok(Place { end, lib })
}

fn expect_steps(
    rt: &impl Abort,
    alloc: Global,
    steps: &[PlainStep],
    wanted: &str,
) -> Result<(), AllocError> {
    let mut text = String::new(alloc);
    for x in steps {
        let word = match x.step {
            Step::New => "new",
            Step::Undo => "undo",
            Step::Final => "final",
            Step::NewFinal => "newfinal",
        };
        text = with_block(alloc, &text, word, x.num, &x.id)?;
    }
    assert_eq!(rt; text.as_str(), wanted);
    Ok(())
}

fn expect_path(
    rt: &impl Abort,
    alloc: Global,
    path: &[&Slip],
    wanted: &str,
) -> Result<(), AllocError> {
    let mut text = String::new(alloc);
    for block in path {
        text = with_block(alloc, &text, "", block.num, &block.id)?;
    }
    assert_eq!(rt; text.as_str(), wanted);
    Ok(())
}

/// The text with one more block, and a word before it where there is one.
fn with_block(
    alloc: Global,
    text: &str,
    word: &str,
    num: u64,
    id: &Id,
) -> Result<String, AllocError> {
    let comma = if text.is_empty() { "" } else { ", " };
    let space = if word.is_empty() { "" } else { " " };
    let id = str::from_utf8(id.as_bytes()).unwrap_or("no text");
    let longer = format!(in alloc; "{text}{comma}{word}{space}{num} {id}")?;
    Ok(longer)
}

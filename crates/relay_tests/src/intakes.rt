//! Offers to small intakes, with answers worked out by hand.

use block_intake::{Conflict, ConflictKind, Intake, IntakeLimits, OfferFault, Offered};
use block_record::into_slip;
use history_tests::blocks::{A1, B2, Whole, whole_block};
use std::alloc::{AllocError, Global};
use std::process::Abort;
use std::test::Fail;

/// What an offer is answered. Conflicts are told by the numbers of the held and the offered block.
#[derive(Clone, Copy, PartialEq, Eq)]
enum Answer {
    /// The place, how many blocks, and how many waiting ones were dropped.
    Admitted(u64, u64, usize),
    Duplicate,
    Waiting,
    Early,
    Stale,
    Contradicts(ConflictKind, u64, u64),
    HistoryFull(u64, u64),
    WaitFull(u64, u64),
    Refused,
    Mem,
}

use Answer::{Admitted, Contradicts, Duplicate, Early, HistoryFull, Stale, WaitFull, Waiting};

/// The first number, the blocks of the history, and the blocks and bytes that may wait.
type Bounds = (u64, u64, u64, u64);

/// An intake, and what it is offered, in order, with the answers.
type Run = (Bounds, &'static [(Whole, Answer)]);

const C3: Whole = (3, "c3", 2, "b2", 2, b"1");

const X4: Whole = (4, "x4", 3, "x3", 1, b"1");

const RUNS: &[Run] = &[
    // The room has its limits in blocks and in bytes.
    (
        (0, 9, 1, 9),
        &[
            (A1, Admitted(0, 1, 0)),
            (X4, Waiting),
            ((5, "y5", 4, "y4", 1, b"1"), WaitFull(1, 1)),
            (X4, Duplicate),
        ],
    ),
    (
        (0, 9, 2, 1),
        &[
            (A1, Admitted(0, 1, 0)),
            (X4, Waiting),
            ((5, "y5", 4, "y4", 1, b"1"), WaitFull(1, 1)),
            ((5, "y5", 4, "y4", 1, b""), Waiting),
        ],
    ),
    // The history has its limit, which the waiting blocks count for.
    (
        (0, 2, 1, 9),
        &[
            (A1, Admitted(0, 1, 0)),
            (C3, Waiting),
            (B2, HistoryFull(1, 2)),
            (C3, Duplicate),
        ],
    ),
    (
        (0, 2, 1, 9),
        &[
            (A1, Admitted(0, 1, 0)),
            (B2, Admitted(1, 1, 0)),
            (C3, HistoryFull(2, 1)),
        ],
    ),
    // Below the first number nothing is taken.
    (
        (2, 9, 9, 9),
        &[
            (A1, Early),
            (B2, Admitted(0, 1, 0)),
            (C3, Admitted(1, 1, 0)),
        ],
    ),
    // The waiting blocks follow, the least number first, and one contradicts another.
    (
        (0, 9, 9, 9),
        &[
            (A1, Admitted(0, 1, 0)),
            ((4, "d4", 3, "c3", 2, b"1"), Waiting),
            (C3, Waiting),
            (B2, Admitted(1, 3, 0)),
        ],
    ),
    (
        (0, 9, 9, 9),
        &[
            (A1, Admitted(0, 1, 0)),
            ((3, "x3", 2, "b2", 3, b"1"), Waiting),
            ((3, "y3", 2, "b2", 3, b"1"), Waiting),
            (B2, Admitted(1, 2, 1)),
            (B2, Duplicate),
        ],
    ),
    // What waits goes where the final tip comes to its number.
    (
        (0, 9, 9, 9),
        &[
            (A1, Admitted(0, 1, 0)),
            ((3, "w3", 2, "v2", 1, b"1"), Waiting),
            (B2, Admitted(1, 1, 0)),
            ((3, "c3", 2, "b2", 3, b"1"), Admitted(2, 1, 0)),
            ((3, "w3", 2, "v2", 1, b"1"), Stale),
        ],
    ),
    // A late final block, the last one admitted, rules out a longer branch.
    (
        (0, 9, 9, 9),
        &[
            (A1, Admitted(0, 1, 0)),
            (B2, Admitted(1, 1, 0)),
            ((3, "b3", 2, "b2", 1, b"1"), Admitted(2, 1, 0)),
            ((4, "b4", 3, "b3", 1, b"1"), Admitted(3, 1, 0)),
            ((2, "c2", 1, "a1", 2, b"1"), Admitted(4, 1, 0)),
            ((3, "q3", 2, "q2", 1, b"1"), Waiting),
            ((2, "q2", 1, "q1", 1, b"1"), Stale),
            ((1, "z1", 0, "z0", 0, b"1"), Stale),
            (B2, Duplicate),
            (
                (5, "b5", 4, "b4", 3, b"1"),
                Contradicts(ConflictKind::Finality, 2, 5),
            ),
            (
                (2, "b2", 1, "a1", 1, b"2"),
                Contradicts(ConflictKind::Id, 2, 2),
            ),
            (
                (5, "p5", 3, "b4", 1, b"1"),
                Contradicts(ConflictKind::Parent, 4, 5),
            ),
        ],
    ),
];

#[test]
fn offers_are_answered_as_by_hand(rt: HostRuntime) -> Result<(), Fail> {
    for (bounds, offers) in RUNS {
        let mut intake = intake_of(rt.alloc(), *bounds)?;
        for (fields, wanted) in *offers {
            assert!(rt; offer(&rt, rt.alloc(), &mut intake, *fields)? == *wanted);
        }
    }
    Ok(())
}

/// An intake with these bounds.
fn intake_of(
    alloc: Global,
    (first, history, wait_blocks, wait_bytes): Bounds,
) -> Result<Intake, AllocError> {
    let limits = IntakeLimits {
        history,
        wait_blocks,
        wait_bytes,
    };
    Intake::new(alloc, first, limits)
}

/// What an offer is answered. Where there was no memory, nothing changed, and it is offered once more.
fn offer(
    rt: &impl Abort,
    alloc: Global,
    intake: &mut Intake,
    fields: Whole,
) -> Result<Answer, AllocError> {
    let before = (intake.len(), intake.waiting());
    let answer = offer_once(rt, alloc, intake, fields);
    if matches!(&answer, Ok(Answer::Mem) | Err(_)) {
        assert!(rt; (intake.len(), intake.waiting()) == before);
        return offer_once(rt, alloc, intake, fields);
    }
    answer
}

fn offer_once(
    rt: &impl Abort,
    alloc: Global,
    intake: &mut Intake,
    fields: Whole,
) -> Result<Answer, AllocError> {
    let block = whole_block(alloc, fields)?.expect(rt, "a block");
    let answer = intake.offer(into_slip(block), None);
    Ok(answer_of(&answer))
}

fn answer_of(answer: &Result<Offered, OfferFault>) -> Answer {
    match answer {
        Ok(
            Offered::Admitted {
                from,
                count,
                dropped,
            },
        ) => Admitted(*from, *count, dropped.len()),
        Ok(Offered::Duplicate) => Duplicate,
        Ok(Offered::Waiting) => Waiting,
        Ok(Offered::Early) => Early,
        Ok(Offered::Stale) => Stale,
        Err(fault) => refusal_of(fault),
    }
}

fn refusal_of(fault: &OfferFault) -> Answer {
    match fault {
        OfferFault::Closed { .. } => Answer::Refused,
        OfferFault::Conflict(
            Conflict {
                kind,
                held,
                offered,
            },
        ) => Contradicts(*kind, held.num, offered.num),
        OfferFault::HistoryFull { len, need } => HistoryFull(*len, *need),
        OfferFault::WaitFull { blocks, bytes } => WaitFull(*blocks, *bytes),
        OfferFault::Mem => Answer::Mem,
    }
}

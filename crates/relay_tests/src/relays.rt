//! Small relays, with answers worked out by hand.

use block_record::{Kind, TypeName, Version};
use block_relay::{ConflictKind, Limits, Look, OfferFault, Offered, Position, Relay};
use chain_model::{Mode, Step};
use fork_db::StepItem;
use history_tests::blocks::{A1, B2, Whole, whole_block};
use std::alloc::{AllocError, Global};
use std::sync::Arc;
use std::test::Fail;
use step_cursor::{Request, parse_cursor};

/// What an offer is answered. Conflicts are told by the numbers of the held and the offered block.
enum Answer {
    /// The place, how many blocks, and how many waiting ones were dropped.
    Admitted(u64, u64, usize),
    Duplicate,
    Waiting,
    Stale,
    Closed(u64),
    Contradicts(ConflictKind, u64, u64),
}

use Answer::{Admitted, Closed, Contradicts, Duplicate, Stale, Waiting};

/// What a relay is offered, in order, the answers, and how many conflicts it has noted then.
const NOTED: &[(Whole, Answer, usize)] = &[
    (A1, Admitted(0, 1, 0), 0),
    ((3, "x3", 2, "b2", 3, b"1"), Waiting, 0),
    ((3, "y3", 2, "b2", 3, b"1"), Waiting, 0),
    // One of the two that wait contradicts the other.
    (B2, Admitted(1, 2, 1), 1),
    (B2, Duplicate, 1),
    (
        (2, "b2", 1, "a1", 1, b"2"),
        Contradicts(ConflictKind::Id, 2, 2),
        2,
    ),
    ((2, "q2", 1, "q1", 1, b"1"), Stale, 2),
];

/// What a closed relay of three blocks is offered.
const REFUSED: &[(Whole, Answer, usize)] = &[((4, "x4", 3, "x3", 1, b"1"), Closed(3), 2)];

#[test]
fn offers_are_answered_and_conflicts_noted(rt: HostRuntime) -> Result<(), Fail> {
    let mut relay = relay_of(rt.alloc())?;
    assert!(rt; are_answered(rt.alloc(), &mut relay, NOTED)?);
    relay.close();
    assert!(rt; are_answered(rt.alloc(), &mut relay, REFUSED)?);
    Ok(())
}

/// A late final block, the last one, rules out a longer branch.
const FORK: &[(Whole, Answer, usize)] = &[
    (A1, Admitted(0, 1, 0), 0),
    (B2, Admitted(1, 1, 0), 0),
    ((3, "b3", 2, "b2", 1, b"1"), Admitted(2, 1, 0), 0),
    ((4, "b4", 3, "b3", 1, b"1"), Admitted(3, 1, 0), 0),
    ((2, "c2", 1, "a1", 2, b"1"), Admitted(4, 1, 0), 0),
];

const STEPS: &[(Step, u64)] = &[
    (Step::Undo, 4),
    (Step::Undo, 3),
    (Step::Undo, 2),
    (Step::NewFinal, 2),
];

#[test]
fn a_cursor_leads_from_an_undone_block_to_the_head(rt: HostRuntime) -> Result<(), Fail> {
    let mut relay = relay_of(rt.alloc())?;
    assert!(rt; are_answered(rt.alloc(), &mut relay, FORK)?);
    // c1:1:4:b4:1:a1
    let steps = steps_from(rt.alloc(), &relay, "YzE6MTo0OmI0OjE6YTE")?;
    assert!(rt; are_steps(steps.as_slice(), STEPS));
    Ok(())
}

/// The steps to the head from where the cursor of this text stands, at most nine.
fn steps_from(alloc: Global, relay: &Relay, text: &str) -> Result<Vec<StepItem>, AllocError> {
    let request = Request {
        start: 0,
        stop: None,
        mode: Mode::Live,
        cursor: parse_cursor(alloc, text.as_bytes()).ok(),
    };
    let mut items = Vec::new(alloc);
    if let Ok(Look::Batch(batch)) = relay.look(&request, &Position::Start) {
        relay.chunk(&batch, 0, 9, &mut items)?;
    }
    Ok(items)
}

/// Whether these are the steps, with the numbers of their blocks, and each has its block.
fn are_steps(items: &[StepItem], wanted: &[(Step, u64)]) -> bool {
    for (item, (step, num)) in items.iter().zip(wanted.iter()) {
        if item.step != *step || item.slip.num != *num || item.held.is_none() {
            return false;
        }
    }
    items.len() == wanted.len()
}

#[test]
fn the_first_kind_is_kept(rt: HostRuntime) -> Result<(), Fail> {
    let mut relay = relay_of(rt.alloc())?;
    for (text, wanted) in [
        ("test.Block", true),
        ("other.Block", false),
        ("test.Block", true),
    ] {
        assert!(rt; is_greeted(rt.alloc(), &mut relay, text)? == wanted);
    }
    Ok(())
}

/// Whether a greeting with this type is taken.
fn is_greeted(alloc: Global, relay: &mut Relay, text: &str) -> Result<bool, AllocError> {
    match TypeName::new(alloc, text.as_bytes())? {
        Some(block_type) => {
            let kind = Kind {
                version: Version::V3,
                block_type,
            };
            Ok(relay.hello(&kind).is_ok())
        }
        None => Ok(false),
    }
}

/// A relay with room for nine blocks.
fn relay_of(alloc: Global) -> Result<Relay, AllocError> {
    let limits = Limits {
        line: 1_000,
        request: 1_000,
        wait_blocks: 9,
        wait_bytes: 9,
        history: 9,
        chunk: 2,
        deaths: 5,
        hold: 3,
    };
    Relay::new(alloc, 0, 1, limits)
}

fn are_answered(
    alloc: Global,
    relay: &mut Relay,
    offers: &[(Whole, Answer, usize)],
) -> Result<bool, AllocError> {
    for (fields, wanted, conflicts) in offers {
        let answered = is_answered(alloc, relay, *fields, wanted)?;
        if !answered || relay.conflicts().len() != *conflicts {
            return Ok(false);
        }
    }
    Ok(true)
}

/// Whether an offer is answered so. Where there was no memory, nothing changed, and it is offered once
/// more.
fn is_answered(
    alloc: Global,
    relay: &mut Relay,
    fields: Whole,
    wanted: &Answer,
) -> Result<bool, AllocError> {
    let before = sizes(relay);
    match offer(alloc, relay, fields) {
        Ok(Some(Err(OfferFault::Mem))) | Err(_) => {
            let is_same = sizes(relay) == before;
            let again = offer(alloc, relay, fields)?;
            Ok(is_same && is_answer(&again, wanted))
        }
        Ok(answer) => Ok(is_answer(&answer, wanted)),
    }
}

/// How many blocks are in the history, how many wait, and how many conflicts were noted.
fn sizes(relay: &Relay) -> (u64, u64, usize) {
    (relay.len(), relay.waiting(), relay.conflicts().len())
}

/// None where the fields are no block's.
type Answered = Option<Result<Offered, OfferFault>>;

fn offer(alloc: Global, relay: &mut Relay, fields: Whole) -> Result<Answered, AllocError> {
    match whole_block(alloc, fields)? {
        Some(block) => {
            let block = Arc::new(alloc, block)?;
            Ok(Some(relay.offer(block)))
        }
        None => Ok(None),
    }
}

fn is_answer(answer: &Answered, wanted: &Answer) -> bool {
    match answer {
        Some(Ok(offered)) => is_offered(offered, wanted),
        Some(Err(fault)) => is_refused(fault, wanted),
        None => false,
    }
}

fn is_offered(offered: &Offered, wanted: &Answer) -> bool {
    match (offered, wanted) {
        (
            Offered::Admitted {
                from,
                count,
                dropped,
            },
            Admitted(at, blocks, gone),
        ) => from == at && count == blocks && dropped.len() == *gone,
        (Offered::Duplicate, Duplicate) => true,
        (Offered::Waiting, Waiting) => true,
        (Offered::Stale, Stale) => true,
        _ => false,
    }
}

fn is_refused(fault: &OfferFault, wanted: &Answer) -> bool {
    match (fault, wanted) {
        (OfferFault::Closed { len }, Closed(wanted)) => len == wanted,
        (OfferFault::Conflict(conflict), Contradicts(kind, held, offered)) => {
            conflict.kind == *kind && conflict.held.num == *held && conflict.offered.num == *offered
        }
        _ => false,
    }
}

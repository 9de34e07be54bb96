//! Looks at small histories, with answers worked out by hand.

ghost use Rattle.std.specs.Prelude.{IfOk};
ghost use Rattle.relay_look.specs.Answers.{FitsAt};

use block_record::{Block, BlockRef, Id, into_slip};
use chain_model::{Mode, Place, Step};
use fork_db::{Batch, ForkDb, ForkFault, Verdict};
use history_tests::blocks::{Fields, block_of};
use relay_look::{Look, LookFault, Position, look, misfit};
use std::alloc::{AllocError, Global};
use std::test::Fail;
use step_cursor::{Cursor, MisfitField, Request, Tail};

/// Of these the final tip is b2.
const CHAIN: &[Fields] = &[
    (1, "a1", 0, "a0", 0),
    (2, "b2", 1, "a1", 1),
    (3, "c3", 2, "b2", 2),
];

/// A late final block, the last one, rules out a longer branch.
const FORK: &[Fields] = &[
    (1, "a1", 0, "a0", 0),
    (2, "b2", 1, "a1", 1),
    (3, "b3", 2, "b2", 1),
    (4, "b4", 3, "b3", 1),
    (2, "c2", 1, "a1", 2),
];

const RUN: u64 = 700;

/// A block by number and id.
type At = (u64, &'static str);

const A1: At = (1, "a1");

const B2: At = (2, "b2");

const B3: At = (3, "b3");

const B4: At = (4, "b4");

const C2: At = (2, "c2");

const C3: At = (3, "c3");

const ZZ: At = (9, "zz");

/// The block of a cursor, its end and its lib, and its tail.
type Parts = (At, At, At, Option<Tail>);

const SEEN_5: Option<Tail> = Some(Tail { run: RUN, seen: 5 });

const SEEN_6: Option<Tail> = Some(Tail { run: RUN, seen: 6 });

const OTHER_RUN: Option<Tail> = Some(Tail { run: 9, seen: 6 });

/// Where a client stands.
enum Stands {
    /// At its start, to get blocks from this number on.
    Start(u64),
    /// At its start, with the cursor of a step.
    Cursor(Step, Parts),
    /// At an end and a lib.
    At(At, At),
}

/// What a look is answered.
enum Answer {
    /// The length of the history, the number of the end where the batch begins, and its undo, final,
    /// newfinal and new steps.
    Steps(u64, u64, (u64, u64, u64, u64)),
    NotYet(u64),
    Done(u64),
    Closing(u64),
    Unknown(&'static str),
    Misfit(MisfitField),
    StopBelow(u64),
}

use Answer::{Closing, Done, Misfit, NotYet, Steps, StopBelow, Unknown};
use Stands::{At as Stand, Cursor as By, Start};

/// A history, whether it is closed, where the client stands, its stop, and the answer.
type Row = (&'static [Fields], bool, Stands, Option<u64>, Answer);

const ROWS: &[Row] = &[
    (&[], false, Start(0), None, NotYet(0)),
    (&[], true, Start(0), None, Closing(0)),
    // The first of a cursor's block, end and lib that is not known, and the first that does not fit.
    (
        CHAIN,
        false,
        By(Step::New, (ZZ, ZZ, A1, None)),
        None,
        Unknown("zz"),
    ),
    (
        CHAIN,
        false,
        By(Step::New, (C3, C3, ZZ, None)),
        None,
        Unknown("zz"),
    ),
    (
        CHAIN,
        false,
        By(Step::New, (B4, B4, C2, None)),
        None,
        Unknown("b4"),
    ),
    (
        FORK,
        false,
        By(Step::New, (B4, B4, C2, None)),
        None,
        Misfit(MisfitField::Lib),
    ),
    (
        FORK,
        false,
        By(Step::New, (B4, B4, B2, None)),
        None,
        Misfit(MisfitField::Lib),
    ),
    (
        FORK,
        false,
        By(Step::New, (B4, B3, A1, None)),
        None,
        Misfit(MisfitField::Step),
    ),
    (
        FORK,
        false,
        By(Step::New, ((5, "b4"), B4, A1, None)),
        None,
        Misfit(MisfitField::Block),
    ),
    (
        FORK,
        false,
        By(Step::New, (B4, (5, "b4"), A1, None)),
        None,
        Misfit(MisfitField::End),
    ),
    // An undo ends at the parent.
    (
        FORK,
        false,
        By(Step::Undo, (B4, B3, A1, None)),
        None,
        Steps(5, 3, (2, 0, 1, 0)),
    ),
    (
        FORK,
        false,
        By(Step::Undo, (B4, B2, A1, None)),
        None,
        Misfit(MisfitField::Step),
    ),
    // More was seen of this run than there is.
    (
        FORK,
        false,
        By(Step::New, (B4, B4, A1, SEEN_6)),
        None,
        NotYet(5),
    ),
    (
        FORK,
        true,
        By(Step::New, (B4, B4, A1, SEEN_6)),
        None,
        Misfit(MisfitField::Seen),
    ),
    (
        FORK,
        false,
        By(Step::New, (B4, B4, A1, SEEN_5)),
        None,
        Steps(5, 4, (3, 0, 1, 0)),
    ),
    (
        FORK,
        false,
        By(Step::New, (B4, B4, A1, OTHER_RUN)),
        None,
        Steps(5, 4, (3, 0, 1, 0)),
    ),
    (
        CHAIN,
        false,
        By(Step::New, (C3, C3, A1, None)),
        Some(1),
        StopBelow(3),
    ),
    (CHAIN, false, Start(0), Some(2), Steps(3, 0, (0, 0, 2, 0))),
    (FORK, false, Start(3), None, Steps(5, 2, (0, 0, 0, 0))),
    (CHAIN, false, Stand(B2, B2), Some(2), Done(3)),
    (
        CHAIN,
        false,
        Stand(B2, A1),
        Some(2),
        Steps(3, 2, (0, 1, 0, 0)),
    ),
    (CHAIN, false, Stand(C3, B2), Some(3), NotYet(3)),
    (CHAIN, false, Stand(C3, B2), None, NotYet(3)),
    (CHAIN, true, Stand(C3, B2), None, Closing(3)),
    (CHAIN, true, Stand(B2, B2), Some(2), Done(3)),
];

#[test]
fn looks_are_answered_as_by_hand(rt: HostRuntime) -> Result<(), Fail> {
    for (i, row) in ROWS.iter().enumerate() {
        assert!(rt; is_answered(rt.alloc(), row)?, "row {i}");
    }
    Ok(())
}

/// Whether a look on the row's history is answered so.
fn is_answered(alloc: Global, row: &Row) -> Result<bool, ForkFault> {
    let (blocks, is_closed, stands, stop, wanted) = row;
    let db = db_of(alloc, blocks)?;
    let request = request_of(alloc, stands, *stop)?;
    let position = position_of(alloc, &db, stands)?;
    match look(&db, RUN, *is_closed, &request, &position) {
        Ok(found) => Ok(is_look(&found, wanted)),
        Err(fault) => Ok(is_refusal(&fault, wanted)),
    }
}

fn is_look(found: &Look, wanted: &Answer) -> bool {
    match (found, wanted) {
        (Look::Batch(batch), Steps(seen, end, counts)) => {
            batch.seen == *seen && end_of(batch) == *end && counts_of(batch) == *counts
        }
        (Look::NotYet { len }, NotYet(wanted)) => len == wanted,
        (Look::Done { len }, Done(wanted)) => len == wanted,
        (Look::Closing { len }, Closing(wanted)) => len == wanted,
        _ => false,
    }
}

fn counts_of(batch: &Batch) -> (u64, u64, u64, u64) {
    (batch.undos, batch.finals, batch.newfinals, batch.news)
}

/// The number of the end where a batch begins, 0 where there is none.
fn end_of(batch: &Batch) -> u64 {
    match &batch.place.end {
        Some(end) => end.num,
        None => 0,
    }
}

fn is_refusal(fault: &LookFault, wanted: &Answer) -> bool {
    match (fault, wanted) {
        (LookFault::Unknown { id }, Unknown(text)) => id.as_bytes() == text.as_bytes(),
        (LookFault::Misfit { field }, Misfit(wanted)) => field == wanted,
        (LookFault::StopBelow { end }, StopBelow(wanted)) => end == wanted,
        _ => false,
    }
}

fn request_of(alloc: Global, stands: &Stands, stop: Option<u64>) -> Result<Request, AllocError> {
    let mut request = Request {
        start: 0,
        stop,
        mode: Mode::Live,
        cursor: None,
    };
    match stands {
        Start(start) => request.start = *start,
        By(step, parts) => request.cursor = cursor_of(alloc, *step, *parts)?,
        Stand(..) => {}
    }
    Ok(request)
}

/// The position at an end and a lib that fit, and else the start.
fn position_of(alloc: Global, db: &ForkDb, stands: &Stands) -> Result<Position, AllocError>
    ensures { IfOk result (λ p. FitsAt db.now.history p) }
{
    let Stand(end, lib) = stands else {
        return Ok(Position::Start);
    };
    match cursor_of(alloc, Step::New, (*end, *end, *lib, None))? {
        Some(cursor) => Ok(position_after(db, cursor)),
        None => Ok(Position::Start),
    }
}

/// The position after a step, where its cursor fits, and else the start.
fn position_after(db: &ForkDb, cursor: Cursor) -> Position
    ensures { FitsAt db.now.history result }
{
    if misfit(db, RUN, &cursor).is_some() {
        return Position::Start;
    }
    Position::At(cursor.place)
}

fn cursor_of(
    alloc: Global,
    step: Step,
    (block, end, lib, tail): Parts,
) -> Result<Option<Cursor>, AllocError> {
    let end = reference_of(alloc, end)?;
    let lib = reference_of(alloc, lib)?;
    match reference_of(alloc, block)? {
        Some(block) => Ok(Some(Cursor {
            step,
            block,
            place: Place { end, lib },
            tail,
        })),
        None => Ok(None),
    }
}

fn reference_of(alloc: Global, (num, text): At) -> Result<Option<BlockRef>, AllocError> {
    match Id::new(alloc, text.as_bytes())? {
        Some(id) => Ok(Some(BlockRef { num, id })),
        None => Ok(None),
    }
}

/// A database of the blocks that fit.
fn db_of(alloc: Global, rows: &[Fields]) -> Result<ForkDb, ForkFault> {
    let mut db = ForkDb::new(alloc, 100)?;
    for fields in rows {
        if let Some(block) = block_of(alloc, *fields)? {
            append(&mut db, block)?;
        }
    }
    Ok(db)
}

fn append(db: &mut ForkDb, block: Block) -> Result<(), ForkFault> {
    if db.can_append(&block) == Verdict::Fits {
        db.append(into_slip(block), None)?;
    }
    Ok(())
}

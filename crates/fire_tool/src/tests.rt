//! What no run of the whole program shows: pieces of the input, streams that fail, and which read
//! comes before which write.

use crate::run::run_plain;
use memory_world::{FailingSink, FailingSource, MemoryShelf, MemorySink, PiecesSource};
use outer_world::{Failed, Sink, Source};
use std::alloc::{AllocError, Global};
use std::cell::Cell;
use std::test::Fail;

/// The lines of a run: late finality undoes a higher branch, a block of that branch ends the run, and
/// a line comes after it.
const LINES: [&[u8]; 7] = [
    b"FIRE INIT 3.0 test.Block\n",
    b"FIRE BLOCK 1 a1 0 a0 0 0 AQ==\n",
    b"FIRE BLOCK 2 b2 1 a1 1 0 AQ==\n",
    b"FIRE BLOCK 3 b3 2 b2 1 0 AQ==\n",
    b"FIRE BLOCK 2 c2 1 a1 2 0 AQ==\n",
    b"FIRE BLOCK 4 b4 3 b3 3 0 AQ==\n",
    b"FIRE BLOCK 3 c3 2 c2 2 0 AQ==\n",
];

/// What stands written once none, one, two, three and four of the blocks have come.
const NOTHING: &[u8] = b"";

const ONE: &[u8] = b"newfinal 1 a1\n";

const TWO: &[u8] = b"newfinal 1 a1\nnew 2 b2\n";

const THREE: &[u8] = b"newfinal 1 a1\nnew 2 b2\nnew 3 b3\n";

const ALL: &[u8] = b"newfinal 1 a1\nnew 2 b2\nnew 3 b3\nundo 3 b3\nundo 2 b2\nnewfinal 2 c2\n";

/// The error line of the block that ends the run.
const CONFLICT: &[u8] = b"fire: conflict finality held 2 c2 offered 4 b4\n";

const READ_FAULT: &[u8] = b"fire: read fault\n";

const WRITE_FAULT: &[u8] = b"fire: write fault\n";

const STEPS: &[&[u8]] = &[b"steps"];

/// Words that name no command.
const STOP: &[&[u8]] = &[b"stop"];

/// The text of a cursor, and one that is cut.
const CURSOR: &[&[u8]] = &[b"cursor", b"--text", b"YzE6MTc6MTphMToxOmExLzcwMC8x"];

const MALFORMED: &[&[u8]] = &[b"cursor", b"--text", b"YQ"];

/// The number of a call that never comes.
const NEVER: u64 = u64::MAX;

/// The reads, the writes and the writes of error lines that fail, each by its number from 0.
#[derive(Clone, Copy)]
struct Faults(u64, u64, u64);

/// What a run left.
#[derive(Drop)]
struct Ran {
    status: u8,
    output: Vec<u8>,
    errors: Vec<u8>,
}

impl Ran {
    /// Whether it is this status, with these texts written.
    fn is(&self, status: u8, output: &[u8], errors: &[u8]) -> bool {
        self.status == status
            && self.output.as_slice() == output
            && self.errors.as_slice() == errors
    }
}

/// Runs the words on the lines, which come in pieces of these lengths.
fn run(
    alloc: Global,
    words: &[&[u8]],
    lengths: Vec<usize>,
    faults: Faults,
) -> Result<Ran, AllocError> {
    let Faults(read, write, error) = faults;
    let words = owned(alloc, words)?;
    let pieces = PiecesSource::new(text(alloc)?, lengths);
    let mut input = FailingSource::new(pieces, Vec::from_slice(alloc, &[read])?);
    let mut output = sink(alloc, write)?;
    let mut errors = sink(alloc, error)?;
    let shelf = &mut MemoryShelf::new(alloc);
    let status = run_plain(
        alloc,
        words.as_slice(),
        &mut input,
        &mut output,
        &mut errors,
        shelf,
    );
    Ok(Ran {
        status: status.code,
        output: written(alloc, &output)?,
        errors: written(alloc, &errors)?,
    })
}

/// The words, each with bytes of its own.
fn owned(alloc: Global, words: &[&[u8]]) -> Result<Vec<Vec<u8>>, AllocError> {
    let mut all = Vec::new(alloc);
    for word in words {
        all.push(Vec::from_slice(alloc, word)?)?;
    }
    Ok(all)
}

/// The lines, one after another.
fn text(alloc: Global) -> Result<Vec<u8>, AllocError> {
    let mut all = Vec::new(alloc);
    for line in LINES {
        all.extend_from_slice(line)?;
    }
    Ok(all)
}

/// The lengths of the lines.
fn by_lines(alloc: Global) -> Result<Vec<usize>, AllocError> {
    let mut all = Vec::new(alloc);
    for line in LINES {
        all.push(line.len())?;
    }
    Ok(all)
}

/// A sink whose call with this number fails.
fn sink(alloc: Global, fails: u64) -> Result<FailingSink<MemorySink>, AllocError> {
    let inner = MemorySink::new(alloc, 256)?;
    Ok(FailingSink::new(inner, Vec::from_slice(alloc, &[fails])?))
}

/// What stands in a sink.
fn written(alloc: Global, sink: &FailingSink<MemorySink>) -> Result<Vec<u8>, AllocError> {
    match sink.inner().written() {
        Some(bytes) => Vec::from_slice(alloc, bytes),
        None => Ok(Vec::new(alloc)),
    }
}

/// The words of a run on the lines one by one, the calls that fail, its status, its output and its
/// error line.
type Row = (
    &'static [&'static [u8]],
    Faults,
    u8,
    &'static [u8],
    &'static [u8],
);

const ROWS: [Row; 18] = [
    (STEPS, Faults(NEVER, NEVER, NEVER), 6, ALL, CONFLICT),
    (STEPS, Faults(0, NEVER, NEVER), 3, NOTHING, READ_FAULT),
    (STEPS, Faults(1, NEVER, NEVER), 3, NOTHING, READ_FAULT),
    (STEPS, Faults(2, NEVER, NEVER), 3, ONE, READ_FAULT),
    (STEPS, Faults(3, NEVER, NEVER), 3, TWO, READ_FAULT),
    (STEPS, Faults(4, NEVER, NEVER), 3, THREE, READ_FAULT),
    (STEPS, Faults(5, NEVER, NEVER), 3, ALL, READ_FAULT),
    (STEPS, Faults(NEVER, 0, NEVER), 4, NOTHING, WRITE_FAULT),
    (STEPS, Faults(NEVER, 1, NEVER), 4, ONE, WRITE_FAULT),
    (STEPS, Faults(NEVER, 2, NEVER), 4, TWO, WRITE_FAULT),
    (STEPS, Faults(NEVER, 3, NEVER), 4, THREE, WRITE_FAULT),
    (STEPS, Faults(NEVER, NEVER, 0), 6, ALL, NOTHING),
    (STEPS, Faults(2, NEVER, 0), 3, ONE, NOTHING),
    (STEPS, Faults(NEVER, 1, 0), 4, ONE, NOTHING),
    (STOP, Faults(NEVER, NEVER, 0), 2, NOTHING, NOTHING),
    (CURSOR, Faults(NEVER, 0, NEVER), 4, NOTHING, WRITE_FAULT),
    (CURSOR, Faults(NEVER, 0, 0), 4, NOTHING, NOTHING),
    (MALFORMED, Faults(NEVER, NEVER, 0), 16, NOTHING, NOTHING),
];

#[test]
fn each_call_that_fails_leaves_the_steps_before_it(rt: HostRuntime) -> Result<(), Fail> {
    let alloc = rt.alloc();
    for (words, faults, status, output, errors) in ROWS {
        let ran = run(alloc, words, by_lines(alloc)?, faults)?;
        assert!(rt; ran.is(status, output, errors));
    }
    Ok(())
}

#[test]
fn pieces_make_no_difference(rt: HostRuntime) -> Result<(), Fail> {
    let alloc = rt.alloc();
    let length = text(alloc)?.len();
    let never = Faults(NEVER, NEVER, NEVER);
    for cut in 1..length {
        let ran = run(alloc, STEPS, Vec::from_slice(alloc, &[cut])?, never)?;
        assert!(rt; ran.is(6, ALL, CONFLICT));
    }
    let ran = run(alloc, STEPS, vec![in alloc; 1; length]?, never)?;
    assert!(rt; ran.is(6, ALL, CONFLICT));
    Ok(())
}

/// A source that counts its reads for others to see.
#[derive(Drop)]
struct CountedSource<'a> {
    pieces: PiecesSource,
    reads: &'a Cell<u8>,
}

impl<'a> Source for CountedSource<'a> {
    ghost use Rattle.std.specs.Prelude.{None};

    ghost left = { λ _. None };

    ghost given = { λ _. None };

    ghost read_faults = { λ _. 0 };

    fn read(&mut self, buf: &mut [u8]) -> Result<usize, Failed> {
        self.reads.set(self.reads.get().saturating_add(1));
        Ok(self.pieces.read(buf).unwrap_or(0))
    }
}

/// A sink that puts before each piece how many reads there were until then.
#[derive(Drop)]
struct NotingSink<'a> {
    notes: Vec<u8>,
    reads: &'a Cell<u8>,
    faults: u64,
}

/// Appends a piece, after the number of reads as a digit.
fn note(notes: &mut Vec<u8>, reads: u8, piece: &[u8]) -> Result<(), AllocError> {
    notes.push(b'0'.saturating_add(reads))?;
    notes.extend_from_slice(piece)?;
    Ok(())
}

impl<'a> Sink for NotingSink<'a> {
    ghost use Rattle.std.specs.Prelude.{None};

    ghost written = { λ _. None };

    ghost write_faults = { λ s. s.faults };

    fn write(&mut self, piece: &[u8]) -> Result<usize, Failed> {
        if note(&mut self.notes, self.reads.get(), piece).is_err() {
            self.faults = self.faults.saturating_add(1);
            return Err(Failed);
        }
        Ok(piece.len())
    }
}

#[test]
fn steps_are_written_before_the_next_read_and_none_follows_the_end(
    rt: HostRuntime,
) -> Result<(), Fail> {
    let alloc = rt.alloc();
    let reads = Cell::new(0);
    let words = owned(alloc, STEPS)?;
    let mut input = CountedSource {
        pieces: PiecesSource::new(text(alloc)?, by_lines(alloc)?),
        reads: &reads,
    };
    let mut output = NotingSink {
        notes: Vec::new(alloc),
        reads: &reads,
        faults: 0,
    };
    let mut errors = sink(alloc, NEVER)?;
    let shelf = &mut MemoryShelf::new(alloc);
    let status = run_plain(
        alloc,
        words.as_slice(),
        &mut input,
        &mut output,
        &mut errors,
        shelf,
    );
    let notes = b"2newfinal 1 a1\n3new 2 b2\n4new 3 b3\n5undo 3 b3\nundo 2 b2\nnewfinal 2 c2\n";
    assert!(rt; output.notes.as_slice() == notes.as_slice());
    assert_eq!(rt; status.code, 6);
    assert_eq!(rt; reads.get(), 6);
    Ok(())
}

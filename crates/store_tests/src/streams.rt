//! Sources and sinks in memory.

use memory_world::{FailingSink, FailingSource, MemorySink, MemorySource, PiecesSource};
use outer_world::{Failed, Sink, Source};
use std::test::Fail;

// What reads into four bytes answer, one after another.
type Reads = &'static [Result<usize, Failed>];

// The lengths of the pieces of five bytes, the calls that fail, and what the reads answer.
const CUT: [(&[usize], &[u64], Reads); 3] = [
    (&[2, 2, 2], &[], &[Ok(2), Ok(2), Ok(1), Ok(0)]),
    (&[0, 9, 1], &[], &[Ok(1), Ok(4), Ok(0)]),
    (
        &[2],
        &[2, 1],
        &[Ok(2), Err(Failed), Err(Failed), Ok(3), Ok(0)],
    ),
];

const WHOLE: Reads = &[Ok(4), Ok(1), Ok(0)];

fn answers<S: Source>(source: &mut S, reads: Reads) -> bool {
    let mut buf = [0; 4];
    for wanted in reads {
        if source.read(&mut buf) != *wanted {
            return false;
        }
    }
    true
}

#[test]
fn a_source_is_cut_and_fails_by_its_lists(rt: HostRuntime) -> Result<(), Fail> {
    let alloc = rt.alloc();
    for (lengths, fails, reads) in CUT {
        let text = Vec::from_slice(alloc, b"abcde")?;
        let pieces = PiecesSource::new(text, Vec::from_slice(alloc, lengths)?);
        let mut source = FailingSource::new(pieces, Vec::from_slice(alloc, fails)?);
        assert!(rt; answers(&mut source, reads));
    }
    let mut source = MemorySource::new(Vec::from_slice(alloc, b"abcde")?);
    assert!(rt; answers(&mut source, WHOLE));
    Ok(())
}

// Texts, and what a sink whose second call fails answers to them.
const WRITES: [(&[u8], Result<usize, Failed>); 3] = [
    (b"abc", Ok(3)),
    (b"de", Err(Failed)),
    (b"de", Ok(2)),
];

#[test]
fn a_sink_fails_by_its_list(rt: HostRuntime) -> Result<(), Fail> {
    let alloc = rt.alloc();
    let sink = MemorySink::new(alloc, 5)?;
    let mut sink = FailingSink::new(sink, Vec::from_slice(alloc, &[1])?);
    for (text, wanted) in WRITES {
        assert!(rt; sink.write(text) == wanted);
    }
    assert!(rt; sink.into_inner().written() == Some(b"abcde".as_slice()));
    Ok(())
}

//! Shelves in memory.

use memory_world::{FailingShelf, Fuse, MemoryShelf};
use outer_world::{FileName, Shelf, ShelfFail};
use std::alloc::{AllocError, Global};
use std::test::Fail;

// A call of a shelf. All are for one file and its folder.
enum Call {
    List,
    Size,
    // From a place on, into three bytes.
    ReadAt(u64),
    Stage(&'static [u8]),
    Commit,
    Remove,
}

use Call::{Commit, List, ReadAt, Remove, Size, Stage};

// What a call answers: how many names there are, the length of the file, or how many bytes were read.
type Answer = Result<Option<u64>, ShelfFail>;

fn answer<S: Shelf>(alloc: Global, shelf: &mut S, call: &Call) -> Answer {
    let name = FileName::new(alloc, b"one/a")?;
    match call {
        List => names_in(alloc, shelf),
        Size => shelf.size(&name),
        ReadAt(at) => read_at(shelf, &name, *at),
        Stage(piece) => done(shelf.stage(piece)),
        Commit => done(shelf.commit(&name)),
        Remove => done(shelf.remove(&name)),
    }
}

fn names_in<S: Shelf>(alloc: Global, shelf: &mut S) -> Answer {
    let mut names = Vec::new(alloc);
    shelf.list(alloc, "one", &mut names)?;
    Ok(Some(names.len() as u64))
}

fn read_at<S: Shelf>(shelf: &mut S, name: &FileName, at: u64) -> Answer {
    let count = shelf.read_at(name, at, &mut [0; 3])?;
    Ok(Some(count as u64))
}

fn done(answer: Result<(), ShelfFail>) -> Answer {
    answer?;
    Ok(None)
}

// A read gives as many bytes as fit.
const PLAIN: &[(Call, Answer)] = &[
    (Size, Ok(None)),
    (Stage(b"ab"), Ok(None)),
    (Stage(b"cde"), Ok(None)),
    (Commit, Ok(None)),
    (List, Ok(Some(1))),
    (Size, Ok(Some(5))),
    (ReadAt(1), Ok(Some(3))),
    (ReadAt(3), Ok(Some(2))),
    (Remove, Ok(None)),
    (List, Ok(Some(0))),
    (ReadAt(0), Ok(Some(0))),
];

#[test]
fn a_shelf_in_memory_answers(rt: HostRuntime) -> Result<(), Fail> {
    let alloc = rt.alloc();
    let mut shelf = MemoryShelf::new(alloc);
    for (call, wanted) in PLAIN {
        assert!(rt; answer(alloc, &mut shelf, call) == *wanted);
    }
    Ok(())
}

// One call of each kind, and what it answers on a shelf without files.
const KINDS: &[(Call, Answer)] = &[
    (List, Ok(Some(0))),
    (Size, Ok(None)),
    (ReadAt(0), Ok(Some(0))),
    (Stage(b"x"), Ok(None)),
    (Commit, Ok(None)),
    (Remove, Ok(None)),
];

// Calls of a fuse for two round a shelf whose second call fails: whether each passes, and how many
// have failed inside and by the fuse.
const BURNT: &[(bool, u64, u64)] = &[(true, 0, 0), (false, 1, 0), (false, 1, 1), (false, 1, 2)];

fn is_one_call_inside(alloc: Global, call: &Call, passed: &Answer) -> Result<bool, AllocError> {
    let fails = Vec::from_slice(alloc, &[1])?;
    let inner = FailingShelf::new(MemoryShelf::new(alloc), fails);
    let mut fuse = Fuse::new(inner, 2);
    for (passes, inside, burnt) in BURNT {
        let wanted = if *passes {
            *passed
        } else {
            Err(ShelfFail::Failed)
        };
        if answer(alloc, &mut fuse, call) != wanted {
            return Ok(false);
        }
        if (fuse.inner().faults(), fuse.faults()) != (*inside, *burnt) {
            return Ok(false);
        }
    }
    Ok(true)
}

#[test]
fn a_call_that_passes_is_one_call_inside(rt: HostRuntime) -> Result<(), Fail> {
    for (call, passed) in KINDS {
        assert!(rt; is_one_call_inside(rt.alloc(), call, passed)?);
    }
    Ok(())
}

#[test]
fn a_stop_loses_the_staged_text(rt: HostRuntime) -> Result<(), Fail> {
    let alloc = rt.alloc();
    let name = FileName::new(alloc, b"one/a")?;
    let mut fuse = Fuse::new(MemoryShelf::new(alloc), 1);
    fuse.stage(b"new")?;
    let mut shelf = fuse.into_inner();
    shelf.commit(&name)?;
    assert!(rt; shelf.file(&name) == Some(b"".as_slice()));
    Ok(())
}

//! What each end of the command `check` writes, with ample memory.

use check_command::run_check;
use memory_world::{FailingShelf, FailingSink, MemoryShelf, MemorySink};
use outer_world::{FileName, write_file};
use std::alloc::{AllocError, Global};
use std::test::Fail;

/// The file on the shelf, the call of the shelf and the write of the output that fail; and then the
/// status, the output and the error line.
type Row = (
    Option<&'static [u8]>,
    u64,
    u64,
    u8,
    &'static [u8],
    &'static [u8],
);

/// The number of a call that never comes.
const NEVER: u64 = u64::MAX;

const REPORT: &[u8] = b"bundles 0\nblocks 0\none 0\nforked 0\n";

const ROWS: [Row; 4] = [
    (None, NEVER, NEVER, 0, REPORT, b""),
    (None, NEVER, 0, 4, b"", b"fire: write fault\n"),
    (None, 0, NEVER, 7, b"", b"fire: shelf fault\n"),
    (
        Some(b"one/x"),
        NEVER,
        NEVER,
        8,
        b"",
        b"fire: shelf bad one/x 0\n",
    ),
];

/// A sink with a write that fails.
fn sink(alloc: Global, fails: u64) -> Result<FailingSink<MemorySink>, AllocError> {
    let fails = Vec::from_slice(alloc, &[fails])?;
    Ok(FailingSink::new(MemorySink::new(alloc, 99)?, fails))
}

/// A shelf with this file and a call that fails.
fn shelf_with(
    alloc: Global,
    file: Option<&[u8]>,
    fails: u64,
) -> Result<FailingShelf<MemoryShelf>, Fail> {
    let mut shelf = MemoryShelf::new(alloc);
    if let Some(file) = file {
        write_file(&mut shelf, &FileName::new(alloc, file)?, b"")?;
    }
    Ok(FailingShelf::new(shelf, Vec::from_slice(alloc, &[fails])?))
}

#[test]
fn each_end_has_its_status_and_its_line(rt: HostRuntime) -> Result<(), Fail> {
    let alloc = rt.alloc();
    for (file, call, write, status, output, line) in ROWS {
        let mut shelf = shelf_with(alloc, file, call)?;
        let mut out = sink(alloc, write)?;
        let mut errors = sink(alloc, NEVER)?;
        assert!(rt; run_check(alloc, &mut shelf, &mut out, &mut errors).code == status);
        assert!(rt; out.inner().written() == Some(output));
        assert!(rt; errors.inner().written() == Some(line));
    }
    Ok(())
}

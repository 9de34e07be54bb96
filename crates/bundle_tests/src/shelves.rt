//! Shelves in memory, of which one call may fail, and their files.

use memory_world::{FailingShelf, MemoryShelf};
use outer_world::FileName;
use std::alloc::{AllocError, Global};
use std::test::Fail;

/// A shelf in memory of which one call may fail.
pub type TestShelf = FailingShelf<MemoryShelf>;

/// A shelf without files. The call of this number fails, counted from 0, if one is given.
pub fn shelf_of(alloc: Global, fails: Option<u64>) -> Result<TestShelf, Fail> {
    let fails = listed(alloc, fails)?;
    Ok(FailingShelf::new(MemoryShelf::new(alloc), fails))
}

fn listed(alloc: Global, fails: Option<u64>) -> Result<Vec<u64>, AllocError> {
    match fails {
        Some(call) => Vec::from_slice(alloc, &[call]),
        None => Ok(Vec::new(alloc)),
    }
}

/// What the file of this name holds, or nothing where it is not there.
pub fn text_of<'a>(alloc: Global, shelf: &'a TestShelf, name: &str) -> Result<&'a [u8], Fail> {
    let name = FileName::new(alloc, name.as_bytes())?;
    Ok(shelf.inner().file(&name).unwrap_or_default())
}

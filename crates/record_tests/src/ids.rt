//! Ids and blocks by number and id, of which several modules speak.

use block_record::{BlockRef, Id};
use std::alloc::Global;
use std::test::Fail;

/// A block by number and id.
pub type Named = (u64, &'static str);

/// A block by number and id, where there is one.
pub type At = Option<Named>;

/// The id of this text.
pub fn id_of(alloc: Global, text: &str) -> Result<Id, Fail> {
    let id = Id::new(alloc, text.as_bytes())?.ok_or("no id")?;
    Ok(id)
}

/// The block of this number and id.
pub fn reference_of(alloc: Global, (num, text): Named) -> Result<BlockRef, Fail> {
    let id = id_of(alloc, text)?;
    Ok(BlockRef { num, id })
}

/// The same, where there is one.
pub fn reference_at(alloc: Global, at: At) -> Result<Option<BlockRef>, Fail> {
    match at {
        Some(block) => {
            let block = reference_of(alloc, block)?;
            Ok(Some(block))
        }
        None => Ok(None),
    }
}

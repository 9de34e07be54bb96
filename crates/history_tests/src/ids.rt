//! Ids that tests speak of.

use block_record::Id;
use std::alloc::{AllocError, Global};
use std::process::Abort;

/// The id of this text.
pub fn id_of(rt: &impl Abort, alloc: Global, text: &str) -> Result<Id, AllocError> {
    let id = Id::new(alloc, text.as_bytes())?;
    Ok(id.expect(rt, "an id"))
}

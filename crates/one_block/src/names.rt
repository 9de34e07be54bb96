//! The one-block name: a block's number, time, ids, lib number and reader.

ghost use Rattle.std.specs.Prelude.{◌≡◌, ◌++◌, ◌∷◌, IfOk, OnOk};
ghost use Rattle.std.specs.Fmt.{decimal};
ghost use Rattle.one_block.specs.Names.{id_end as end_of_id, one_block_name, IsNamed};

use crate::moments::moment_of;
use crate::print::{push_moment, push_number, push_padded};
use block_record::{Id, ReaderName, Slip};
use outer_world::FileName;
use std::alloc::{AllocError, Global};

/// What the name of a block's file tells.
#[derive(Clone, PartialEq, Eq, Debug, Drop)]
pub struct NameParts {
    pub num: u64,
    /// Tenths of seconds since 1970-01-01 00:00:00 UTC.
    pub tenths: u64,
    /// The last 16 characters of the id, or all of a shorter one.
    pub id_end: Id,
    /// The same of the parent's id.
    pub parent_end: Id,
    pub lib_num: u64,
    /// The reader that wrote the file.
    pub reader: ReaderName,
}

/// The name of the file that the reader writes for the block, without folder and ending. Its time is
/// cut to tenths of seconds.
pub fn name_of(alloc: Global, slip: &Slip, reader: &ReaderName) -> Result<FileName, AllocError>
    ensures text { IfOk result (λ name. name ≡ one_block_name slip.now reader.now) }
    ensures named { OnOk result (IsNamed slip.now reader.now) }
{
    let mut text = Vec::new(alloc);
    push_padded(10, slip.num, &mut text)?;
    text.push(b'-')?;
    push_moment(moment_of(slip.time / 100_000_000), &mut text)?;
    push_word(id_end(slip.id.as_bytes()), &mut text)?;
    push_word(id_end(slip.parent_id.as_bytes()), &mut text)?;
    text.push(b'-')?;
    push_number(slip.lib_num, &mut text)?;
    push_word(reader.as_bytes(), &mut text)?;
    Ok(FileName::from_vec(text))
}

/// The last 16 bytes of an id, or all of a shorter one.
fn id_end(id: &[u8]) -> &[u8]
    ensures { result.now ≡ end_of_id id.now }
{
    &id[id.len().saturating_sub(16)..]
}

/// Appends a dash and a word.
fn push_word(word: &[u8], text: &mut Vec<u8>) -> Result<(), AllocError>
    ensures { OnOk result (text.new.items ≡ text.old.items ++ 45 ∷ word.now) }
{
    text.push(b'-')?;
    text.extend_from_slice(word)?;
    Ok(())
}

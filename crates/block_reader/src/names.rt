//! The names of a block's files.

ghost use Rattle.std.specs.Prelude.{◌≡◌, IfOk, OnOk};
ghost use Rattle.block_record.specs.Slips.{slip as slip_so};
ghost use Rattle.one_block.specs.Names.{IsNamed, own_file};
ghost use Rattle.block_reader.specs.Changes.{refused_file};

use block_record::{Block, ReaderName, slip_of};
use one_block::{name_of, whole_name};
use outer_world::FileName;
use std::alloc::{AllocError, Global};

/// The whole names of a block's files by a reader.
#[derive(Debug, Drop)]
pub struct BlockNames {
    /// In `one/`.
    pub one: FileName,
    /// In `refused/`.
    pub refused: FileName,
}

/// The names of a block's files by the reader.
pub fn names_of(alloc: Global, block: &Block, reader: &ReaderName) -> Result<BlockNames, AllocError>
    ensures one { IfOk result (λ names. names.one ≡ own_file (slip_so block.now) reader.now) }
    ensures refused { IfOk result
        (λ names. names.refused ≡ refused_file (slip_so block.now) reader.now) }
    ensures named { OnOk result (IsNamed (slip_so block.now) reader.now) }
{
    let slip = slip_of(alloc, block)?;
    let name = name_of(alloc, &slip, reader)?;
    let one = whole_name(alloc, "one", &name)?;
    let refused = whole_name(alloc, "refused", &name)?;
    Ok(BlockNames { one, refused })
}

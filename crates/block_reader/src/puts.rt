//! A block's own file, put and noted.

ghost use Rattle.std.specs.Prelude.{◌≡◌, ◌≤◌, Bool, not, OnErr, OnOk, if◌then◌else◌};
ghost use Rattle.block_record.specs.Slips.{slip as slip_so};
ghost use Rattle.one_block.specs.Names.{own_file};
ghost use Rattle.one_block.specs.OneFiles.{one_file_text};
ghost use Rattle.one_block.specs.Puts.{PutAnswers};
ghost use Rattle.block_reader.specs.Own.{own_by, with_own, without_own};

use crate::own::OwnFiles;
use block_record::{Block, Kind, ReaderName};
use one_block::{Put, StoreFault, put_block};
use outer_world::{FileName, Shelf};
use std::alloc::Global;

/// Puts the block's own file, whose name this is, into `one/`, and notes it. After a refusal it is
/// not noted.
pub(crate) fn put_noted<S: Shelf>(
    alloc: Global,
    shelf: &mut S,
    reader: &ReaderName,
    own: &mut OwnFiles,
    name: &FileName,
    block: &Block,
    kind: &Kind,
) -> Result<Put, StoreFault>
    requires { name.now ≡ own_file (slip_so block.now) reader.now }
    ensures answers { PutAnswers (slip_so block.now) reader.now (one_file_text kind.now block.now)
        (S.files shelf.old) (S.files shelf.new)
        (S.shelf_faults shelf.old) (S.shelf_faults shelf.new) result }
    ensures noted { OnOk result (own.new ≡ with_own (own_by (slip_so block.now) reader.now) own.old) }
    ensures unnoted { OnErr result (own.new ≡ own.old) }
    ensures later { S.shelf_faults shelf.old ≤ S.shelf_faults shelf.new }
{
    let added = own.note(name, block.num, &block.id)?;
    match put_block(alloc, shelf, reader, block, kind) {
        Ok(put) => Ok(put),
        Err(fault) => {
            unnote(own, name, added);
            Err(fault)
        }
    }
}

/// Takes a file out again that was added.
fn unnote(own: &mut OwnFiles, name: &FileName, added: bool)
    ensures { own.new ≡ (if added then without_own name.now own.old else own.old) }
{
    if added {
        own.forget(name);
    }
}

//! What becomes of a block's own file, by the answer to the block's offer.

ghost use Rattle.std.specs.Prelude.{◌≡◌, OnErr, IfOk, OnOk};
ghost use Rattle.outer_world.specs.Shelves.{HasShelfCause};
ghost use Rattle.one_block.specs.OneFiles.{one_file_text};
ghost use Rattle.block_reader.specs.Changes.{IsStopped, IsTried, Remove, changed, changed_all, own_changes, refusal_changes, shelved, written_changes};

use crate::names::BlockNames;
use crate::own::OwnFiles;
use block_record::{Block, Kind};
use block_relay::{OfferFault, Offered};
use one_block::{Put, one_file};
use outer_world::{FileName, Shelf, ShelfFail, write_file};
use std::alloc::{AllocError, Global};

/// Does to the block's own file what the answer to its offer asks for. A block that is early or
/// stale gives up a file that was written for it, and a block that contradicts has its file in
/// `refused/`.
pub(crate) fn place_file<S: Shelf>(
    alloc: Global,
    shelf: &mut S,
    own: &mut OwnFiles,
    names: &BlockNames,
    put: Put,
    block: &Block,
    kind: &Kind,
    answer: &Result<Offered, OfferFault>,
) -> Result<(), ShelfFail>
    ensures done { OnOk result (shelved (S.files shelf.new) own.new
        ≡ changed_all (own_changes put names.now.one names.now.refused (one_file_text kind.now block.now) answer.now)
        (shelved (S.files shelf.old) own.old)) }
    ensures stopped { OnErr result (IsStopped
        (own_changes put names.now.one names.now.refused (one_file_text kind.now block.now) answer.now)
        (shelved (S.files shelf.old) own.old) (shelved (S.files shelf.new) own.new)) }
    ensures cause { HasShelfCause (S.shelf_faults shelf.old) (S.shelf_faults shelf.new) result }
{
    match answer {
        Ok(Offered::Early) | Ok(Offered::Stale) => drop_written(shelf, own, &names.one, put),
        Err(OfferFault::Conflict(_)) => refuse_file(alloc, shelf, own, names, block, kind),
        _ => Ok(()),
    }
}

/// Removes a file that was written in this call.
fn drop_written<S: Shelf>(
    shelf: &mut S,
    own: &mut OwnFiles,
    name: &FileName,
    put: Put,
) -> Result<(), ShelfFail>
    ensures done { OnOk result (shelved (S.files shelf.new) own.new
        ≡ changed_all (written_changes put name.now) (shelved (S.files shelf.old) own.old)) }
    ensures stopped { OnErr result (IsStopped (written_changes put name.now)
        (shelved (S.files shelf.old) own.old) (shelved (S.files shelf.new) own.new)) }
    ensures cause { HasShelfCause (S.shelf_faults shelf.old) (S.shelf_faults shelf.new) result }
{
    match put {
        Put::Written => drop_file(shelf, own, name),
        Put::Present => Ok(()),
    }
}

/// Writes the block's file into `refused/`, and then removes that of `one/`.
fn refuse_file<S: Shelf>(
    alloc: Global,
    shelf: &mut S,
    own: &mut OwnFiles,
    names: &BlockNames,
    block: &Block,
    kind: &Kind,
) -> Result<(), ShelfFail>
    ensures done { OnOk result (shelved (S.files shelf.new) own.new
        ≡ changed_all (refusal_changes names.now.one names.now.refused (one_file_text kind.now block.now))
        (shelved (S.files shelf.old) own.old)) }
    ensures stopped { OnErr result (IsStopped
        (refusal_changes names.now.one names.now.refused (one_file_text kind.now block.now))
        (shelved (S.files shelf.old) own.old) (shelved (S.files shelf.new) own.new)) }
    ensures cause { HasShelfCause (S.shelf_faults shelf.old) (S.shelf_faults shelf.new) result }
{
    let text = one_file(alloc, block, kind)?;
    write_file(shelf, &names.refused, text.as_slice())?;
    drop_file(shelf, own, &names.one)?;
    Ok(())
}

/// Removes a file of `one/`. It is one of the own files no more, before its removal is tried.
pub(crate) fn drop_file<S: Shelf>(
    shelf: &mut S,
    own: &mut OwnFiles,
    name: &FileName,
) -> Result<(), ShelfFail>
    ensures done { OnOk result (shelved (S.files shelf.new) own.new
        ≡ changed (Remove name.now) (shelved (S.files shelf.old) own.old)) }
    ensures tried { OnErr result (IsTried (Remove name.now)
        (shelved (S.files shelf.old) own.old) (shelved (S.files shelf.new) own.new)) }
    ensures cause { HasShelfCause (S.shelf_faults shelf.old) (S.shelf_faults shelf.new) result }
{
    own.forget(name);
    shelf.remove(name)?;
    Ok(())
}

//! The oldest own files, removed where their blocks need none any more.

ghost use Rattle.std.specs.Prelude.{◌≡◌, ◌≤◌, ◌+◌, ◌<◌, ◌^◌, OnErr, IfOk, OnOk};
ghost use Rattle.outer_world.specs.Shelves.{HasShelfCause};
ghost use Rattle.block_relay.specs.Chronicle.{world_told};
ghost use Rattle.block_reader.specs.Changes.{IsStopped, changed_all, changes_at, is_swept_at as is_swept_in, next_place, shelved, swept_changes};

use crate::own::OwnFiles;
use block_relay::Relay;
use outer_world::{Shelf, ShelfFail};

/// Looks at the two oldest own files, and removes each whose block needs none any more.
pub(crate) fn sweep_oldest<S: Shelf>(
    relay: &Relay,
    shelf: &mut S,
    own: &mut OwnFiles,
) -> Result<(), ShelfFail>
    ensures done { OnOk result (shelved (S.files shelf.new) own.new
        ≡ changed_all (swept_changes (world_told relay.now) own.old) (shelved (S.files shelf.old) own.old)) }
    ensures stopped { OnErr result (IsStopped (swept_changes (world_told relay.now) own.old)
        (shelved (S.files shelf.old) own.old) (shelved (S.files shelf.new) own.new)) }
    ensures cause { HasShelfCause (S.shelf_faults shelf.old) (S.shelf_faults shelf.new) result }
{
    // No two have one name.
    let _ = own.len();
    let next = sweep_at(relay, shelf, own, 0)?;
    let _ = sweep_at(relay, shelf, own, next)?;
    Ok(())
}

/// Looks at the own file at a place, and tells the place of the next one.
fn sweep_at<S: Shelf>(
    relay: &Relay,
    shelf: &mut S,
    own: &mut OwnFiles,
    at: usize,
) -> Result<usize, ShelfFail>
    requires { at < 2 }
    ensures done { OnOk result (shelved (S.files shelf.new) own.new
        ≡ changed_all (changes_at (world_told relay.now) at own.old) (shelved (S.files shelf.old) own.old)) }
    ensures next { IfOk result (λ next. next ≡ next_place (world_told relay.now) at own.old) }
    ensures stopped { OnErr result (IsStopped (changes_at (world_told relay.now) at own.old)
        (shelved (S.files shelf.old) own.old) (shelved (S.files shelf.new) own.new)) }
    ensures cause { HasShelfCause (S.shelf_faults shelf.old) (S.shelf_faults shelf.new) result }
{
    if !is_swept_at(relay, own, at) {
        return Ok(at + 1);
    }
    let Some(file) = own.remove_at(at) else {
        return Ok(at + 1);
    };
    shelf.remove(&file.name)?;
    Ok(at)
}

/// Whether the own file at a place may be removed.
fn is_swept_at(relay: &Relay, own: &OwnFiles, at: usize) -> bool
    ensures { result ≡ is_swept_in (world_told relay.now) at own.now }
{
    match own.get(at) {
        Some(file) => relay.may_sweep(file.num, &file.id),
        None => false,
    }
}

//! The files of `one/` that are needed no more, removed.

ghost use Rattle.std.specs.Prelude.{◌≡◌, ◌≤◌, IsTrue, codes};
ghost use Rattle.outer_world.specs.Files.{is_in};
ghost use Rattle.outer_world.specs.Shelves.{AreNamesOf};
ghost use Rattle.block_relay.specs.Chronicle.{world_told};
ghost use Rattle.shelf_load.specs.Sweeps.{FileAnswers, IsOnly, NamesAnswer, StaysKept, SweepAnswers, one_if as counted};

use crate::owns::own_slip;
use block_relay::Relay;
use one_block::StoreFault;
use outer_world::{FileName, Shelf};
use std::alloc::Global;

/// Removes each file of `one/` whose block needs none any more, and tells how many there were.
pub fn sweep_all<S: Shelf>(alloc: Global, relay: &Relay, shelf: &mut S) -> Result<u64, StoreFault>
    ensures answer { SweepAnswers (world_told relay.now) (S.files shelf.old) (S.files shelf.new)
        (S.shelf_faults shelf.old) (S.shelf_faults shelf.new) result }
    // Whatever the answer is, what the files keep of the world they go on to keep.
    ensures kept { StaysKept (world_told relay.now) (S.files shelf.old) (S.files shelf.new) }
    ensures staged { S.staged shelf.new ≡ S.staged shelf.old }
    ensures later { S.shelf_faults shelf.old ≤ S.shelf_faults shelf.new }
{
    // The relay's world is sound.
    let _ = relay.len();
    let mut names = Vec::new(alloc);
    shelf.list(alloc, "one", &mut names)?;
    let count = sweep_names(alloc, relay, shelf, names.as_slice())?;
    Ok(count)
}

/// The same of the files of these names, which are all of the folder.
fn sweep_names<S: Shelf>(
    alloc: Global,
    relay: &Relay,
    shelf: &mut S,
    names: &[FileName],
) -> Result<u64, StoreFault>
    requires { AreNamesOf (S.files shelf.old) (codes "one") names.now }
    ensures answer { NamesAnswer (world_told relay.now) names.now (S.files shelf.old)
        (S.files shelf.new) (S.shelf_faults shelf.old) (S.shelf_faults shelf.new) result }
    ensures staged { S.staged shelf.new ≡ S.staged shelf.old }
    ensures later { S.shelf_faults shelf.old ≤ S.shelf_faults shelf.new }
{
    let mut count = 0;
    for name in names {
        let removed = sweep_file(alloc, relay, shelf, name)?;
        count += one_if(removed);
    }
    Ok(count)
}

/// One for a file that was removed.
fn one_if(removed: bool) -> u64
    ensures { result ≡ counted removed }
{
    if removed { 1 } else { 0 }
}

/// Removes the file of this name, where its block needs none any more, and tells whether it did.
fn sweep_file<S: Shelf>(
    alloc: Global,
    relay: &Relay,
    shelf: &mut S,
    name: &FileName,
) -> Result<bool, StoreFault>
    requires inside { IsTrue (is_in (codes "one") name.now) }
    requires only { IsOnly (S.files shelf.old) name.now }
    ensures answer { FileAnswers (world_told relay.now) name.now (S.files shelf.old)
        (S.files shelf.new) (S.shelf_faults shelf.old) (S.shelf_faults shelf.new) result }
    ensures staged { S.staged shelf.new ≡ S.staged shelf.old }
    ensures later { S.shelf_faults shelf.old ≤ S.shelf_faults shelf.new }
{
    let slip = own_slip(alloc, shelf, name)?;
    if !relay.may_sweep(slip.num, &slip.id) {
        return Ok(false);
    }
    shelf.remove(name)?;
    Ok(true)
}

//! The files of the shelf's folders, loaded one after another in their order.

ghost use Rattle.std.specs.Prelude.{◌≡◌, ◌≤◌, List, ℕ};
ghost use Rattle.std.specs.List.{All, AllByRecursion};
ghost use Rattle.block_relay.specs.Chronicle.{world_told};
ghost use Rattle.one_block.specs.Files.{IsSize};
ghost use Rattle.relay_model.specs.Worlds.{World};
ghost use Rattle.shelf_load.specs.Entries.{IsBadOf, IsEntryOf, IsReadOf, IsTakenOf};
ghost use Rattle.shelf_load.specs.Loading.{AreBundlesTaken, AreSinglesTaken, EntriesAnswer, FileAnswers, IsLoaded, IsPart, LoadAnswers, TakenFile};
ghost use Rattle.shelf_load.specs.Merging.{IsBadMerged};
ghost use Rattle.shelf_load.specs.Singling.{IsBadSingleFile};
ghost use Rattle.shelf_load.specs.Taking.{stage};

use crate::left_out::LeftOut;
use crate::merged::load_bundle;
use crate::singles::{list_singles, load_single};
use block_relay::Relay;
use one_block::merged_folder;
use outer_world::{FileName, Shelf};
use shelf_check::{LoadFault, based_entries};
use std::alloc::Global;

/// What the files hold that are loaded together.
#[derive(Clone, Copy)]
pub enum FileContent {
    /// Merged blocks.
    MergedBlocks,
    /// One block each.
    OneBlock,
}

/// Takes the blocks of all files of merged blocks of this size, by their bases as numbers.
pub(crate) fn load_merged<S: Shelf>(
    alloc: Global,
    relay: &mut Relay,
    left: &mut LeftOut,
    shelf: &mut S,
    size: u64,
) -> Result<(), LoadFault>
    requires { IsSize size }
    ensures answer { (w : World) (older : List TakenFile)
        → IsLoaded w older (stage (world_told relay.old) left.old)
        → AllByRecursion (IsPart (S.files shelf.old)) older
        → LoadAnswers (AreBundlesTaken size (S.files shelf.old))
        (IsBadMerged size (S.files shelf.old) w older)
        (S.files shelf.old) w older (stage (world_told relay.new) left.new)
        (S.shelf_faults shelf.old) (S.shelf_faults shelf.new) result }
    ensures files { S.files shelf.new ≡ S.files shelf.old }
    ensures staged { S.staged shelf.new ≡ S.staged shelf.old }
    ensures later { S.shelf_faults shelf.old ≤ S.shelf_faults shelf.new }
{
    let mut names = Vec::new(alloc);
    shelf.list(alloc, merged_folder(size), &mut names)?;
    let mut entries = based_entries(alloc, size, names.as_slice())?;
    entries.sort_unstable();
    load_entries(
        alloc,
        relay,
        left,
        shelf,
        FileContent::MergedBlocks,
        entries.as_slice(),
    )?;
    Ok(())
}

/// Takes the blocks of all files of `forked/` and `one/` together, by number and then by whole name.
pub(crate) fn load_singles<S: Shelf>(
    alloc: Global,
    relay: &mut Relay,
    left: &mut LeftOut,
    shelf: &mut S,
) -> Result<(), LoadFault>
    ensures answer { (w : World) (older : List TakenFile)
        → IsLoaded w older (stage (world_told relay.old) left.old)
        → AllByRecursion (IsPart (S.files shelf.old)) older
        → LoadAnswers (AreSinglesTaken (S.files shelf.old))
        (IsBadSingleFile (S.files shelf.old) w older)
        (S.files shelf.old) w older (stage (world_told relay.new) left.new)
        (S.shelf_faults shelf.old) (S.shelf_faults shelf.new) result }
    ensures files { S.files shelf.new ≡ S.files shelf.old }
    ensures staged { S.staged shelf.new ≡ S.staged shelf.old }
    ensures later { S.shelf_faults shelf.old ≤ S.shelf_faults shelf.new }
{
    let entries = list_singles(alloc, shelf)?;
    load_entries(
        alloc,
        relay,
        left,
        shelf,
        FileContent::OneBlock,
        entries.as_slice(),
    )?;
    Ok(())
}

/// Takes the blocks of files one after another.
fn load_entries<S: Shelf>(
    alloc: Global,
    relay: &mut Relay,
    left: &mut LeftOut,
    shelf: &mut S,
    content: FileContent,
    entries: &[(u64, FileName)],
) -> Result<(), LoadFault>
    ensures answer { (size : ℕ) (w : World) (older : List TakenFile)
        → All (IsEntryOf content size) entries.now
        → IsLoaded w older (stage (world_told relay.old) left.old)
        → AllByRecursion (IsPart (S.files shelf.old)) older
        → EntriesAnswer (IsTakenOf content size (S.files shelf.old))
        (IsBadOf content (S.files shelf.old)) (S.files shelf.old) entries.now w older
        (stage (world_told relay.new) left.new)
        (S.shelf_faults shelf.old) (S.shelf_faults shelf.new) result }
    ensures files { S.files shelf.new ≡ S.files shelf.old }
    ensures staged { S.staged shelf.new ≡ S.staged shelf.old }
    ensures later { S.shelf_faults shelf.old ≤ S.shelf_faults shelf.new }
{
    for entry in entries {
        load_file(alloc, relay, left, shelf, content, &entry.1)?;
    }
    Ok(())
}

/// Takes the blocks of a file.
fn load_file<S: Shelf>(
    alloc: Global,
    relay: &mut Relay,
    left: &mut LeftOut,
    shelf: &mut S,
    content: FileContent,
    name: &FileName,
) -> Result<(), LoadFault>
    ensures answer { (w : World) (older : List TakenFile)
        → IsLoaded w older (stage (world_told relay.old) left.old)
        → AllByRecursion (IsPart (S.files shelf.old)) older
        → FileAnswers (IsReadOf content (S.files shelf.old)) (IsBadOf content (S.files shelf.old))
        (S.files shelf.old) name.now w older (stage (world_told relay.new) left.new)
        (S.shelf_faults shelf.old) (S.shelf_faults shelf.new) result }
    ensures files { S.files shelf.new ≡ S.files shelf.old }
    ensures staged { S.staged shelf.new ≡ S.staged shelf.old }
    ensures later { S.shelf_faults shelf.old ≤ S.shelf_faults shelf.new }
{
    match content {
        FileContent::MergedBlocks => {
            load_bundle(alloc, relay, left, shelf, name)?;
            Ok(())
        }
        FileContent::OneBlock => {
            load_single(alloc, relay, left, shelf, name)?;
            Ok(())
        }
    }
}

//! The folders whose files hold one block each, listed, and such a file, loaded.

ghost use Rattle.std.specs.Prelude.{◌≡◌, ◌==◌, ◌<◌, ◌≤◌, List, IfOk, IfSome, length};
ghost use Rattle.std.specs.List.{AllByRecursion, position};
ghost use Rattle.std.specs.Option.{option_map};
ghost use Rattle.block_record.specs.Slips.{slip};
ghost use Rattle.block_relay.specs.Chronicle.{world_told};
ghost use Rattle.relay_model.specs.Worlds.{World};
ghost use Rattle.shelf_load.specs.Loading.{FileAnswers, IsLoaded, IsPart, TakenFile, origin_of as origin_so};
ghost use Rattle.shelf_load.specs.Singling.{FolderAnswers, IsBadSingle, IsSingleRead, ListAnswers, NamesAnswer, TextAnswers, ToldAnswers, folder_of as folder_so, number_before as number_up_to, number_begun as number_at_front, number_in as number_so};
ghost use Rattle.shelf_load.specs.Taking.{stage, taken};

use crate::heads::hello;
use crate::left_out::LeftOut;
use crate::put_by::Origin;
use crate::taking::take_block;
use block_record::{Block, TypeName};
use block_relay::Relay;
use one_block::{FileFault, Folder, bare_name, copy_type, form_of, read_block, read_filled};
use outer_world::{FileName, Shelf};
use shelf_check::{LoadFault, add_entry, bad_file, folder_text, read_text, with_name};
use std::alloc::{AllocError, Global};

/// The numbers and names of all files of `forked/` and `one/`, by number and then by whole name.
pub(crate) fn list_singles<S: Shelf>(
    alloc: Global,
    shelf: &mut S,
) -> Result<Vec<(u64, FileName)>, LoadFault>
    ensures answer { ListAnswers (S.files shelf.old)
        (S.shelf_faults shelf.old) (S.shelf_faults shelf.new) result }
    ensures files { S.files shelf.new ≡ S.files shelf.old }
    ensures staged { S.staged shelf.new ≡ S.staged shelf.old }
    ensures later { S.shelf_faults shelf.old ≤ S.shelf_faults shelf.new }
{
    let mut entries = Vec::new(alloc);
    add_folder(alloc, shelf, Folder::Forked, &mut entries)?;
    add_folder(alloc, shelf, Folder::One, &mut entries)?;
    entries.sort_unstable();
    Ok(entries)
}

/// Adds the names of a folder's files, each with the number in it.
fn add_folder<S: Shelf>(
    alloc: Global,
    shelf: &mut S,
    folder: Folder,
    entries: &mut Vec<(u64, FileName)>,
) -> Result<(), LoadFault>
    ensures answer { FolderAnswers folder (S.files shelf.old) entries.old.items entries.new.items
        (S.shelf_faults shelf.old) (S.shelf_faults shelf.new) result }
    ensures files { S.files shelf.new ≡ S.files shelf.old }
    ensures staged { S.staged shelf.new ≡ S.staged shelf.old }
    ensures later { S.shelf_faults shelf.old ≤ S.shelf_faults shelf.new }
{
    let mut names = Vec::new(alloc);
    shelf.list(alloc, folder_text(folder), &mut names)?;
    add_names(alloc, names.as_slice(), entries)?;
    Ok(())
}

/// Adds names, each with the number in it.
fn add_names(
    alloc: Global,
    names: &[FileName],
    entries: &mut Vec<(u64, FileName)>,
) -> Result<(), LoadFault>
    ensures { NamesAnswer names.now entries.old.items entries.new.items result }
{
    for name in names {
        match number_in(alloc, name)? {
            Some(num) => add_entry(alloc, num, name, entries)?,
            None => return Err(bad_file(alloc, name, 0)),
        }
    }
    Ok(())
}

/// The number with which the name of a file of one block begins.
fn number_in(alloc: Global, name: &FileName) -> Result<Option<u64>, AllocError>
    ensures { IfOk result (λ found. found ≡ number_so name.now) }
{
    match bare_name(alloc, name)? {
        Some(bare) => Ok(number_begun(bare.as_bytes())),
        None => Ok(None),
    }
}

/// The same of a name without folder and ending: the number ends at the first dash.
fn number_begun(bare: &[u8]) -> Option<u64>
    ensures { result ≡ number_at_front bare.now }
{
    match first_dash(bare) {
        Some(end) => number_before(bare, end),
        None => None,
    }
}

/// Where the first dash stands.
fn first_dash(text: &[u8]) -> Option<usize>
    ensures place { result ≡ position (λ byte. byte == 45) text.now }
    ensures within { IfSome result (λ place. place < length text.now) }
{
    text.iter().position(|byte| *byte == b'-')
}

/// The number that stands before this place.
fn number_before(bare: &[u8], end: usize) -> Option<u64>
    requires { end < length bare.now }
    ensures { result ≡ number_up_to bare.now end }
{
    let (num, _) = bare.split_at(end);
    read_filled(10, num)
}

/// Takes the block of a file that holds one.
pub(crate) fn load_single<S: Shelf>(
    alloc: Global,
    relay: &mut Relay,
    left: &mut LeftOut,
    shelf: &mut S,
    name: &FileName,
) -> Result<(), LoadFault>
    ensures answer { (w : World) (older : List TakenFile)
        → IsLoaded w older (stage (world_told relay.old) left.old)
        → AllByRecursion (IsPart (S.files shelf.old)) older
        → FileAnswers (IsSingleRead (S.files shelf.old)) (IsBadSingle (S.files shelf.old))
        (S.files shelf.old) name.now w older (stage (world_told relay.new) left.new)
        (S.shelf_faults shelf.old) (S.shelf_faults shelf.new) result }
    ensures files { S.files shelf.new ≡ S.files shelf.old }
    ensures staged { S.staged shelf.new ≡ S.staged shelf.old }
    ensures later { S.shelf_faults shelf.old ≤ S.shelf_faults shelf.new }
{
    let folder = folder_of(name);
    let kept = kept_type(relay)?;
    let text = read_text(alloc, shelf, name)?;
    match block_in(alloc, folder, name, text.as_slice(), &kept) {
        Ok((block_type, block)) => {
            take_single(alloc, relay, left, folder, block_type, block)?;
            Ok(())
        }
        Err(fault) => Err(with_name(alloc, name, fault)),
    }
}

/// The type that the relay keeps.
fn kept_type(relay: &Relay) -> Result<Option<TypeName>, AllocError>
    ensures { IfOk result
        (λ kept. kept ≡ option_map (λ k. k.block_type) (world_told relay.now).kind) }
{
    match relay.kind() {
        Some(kind) => {
            let block_type = copy_type(&kind.block_type)?;
            Ok(Some(block_type))
        }
        None => Ok(None),
    }
}

/// The folder of a file of one block.
fn folder_of(name: &FileName) -> Folder
    ensures { result ≡ folder_so name.now }
{
    if name.is_in("one") {
        Folder::One
    } else {
        Folder::Forked
    }
}

/// The type and the block of a file's text, or where it is bad.
fn block_in(
    alloc: Global,
    folder: Folder,
    name: &FileName,
    text: &[u8],
    kept: &Option<TypeName>,
) -> Result<(TypeName, Block), FileFault>
    ensures { TextAnswers folder name.now text.now kept.now result }
{
    match form_of(alloc, folder, name)? {
        Some(form) => {
            let (block_type, block) = read_block(alloc, &form, name, text, kept)?;
            Ok((block_type, block))
        }
        None => Err(FileFault::Bad { at: 0 }),
    }
}

/// Tells the type of a file of this folder, and takes its block.
fn take_single(
    alloc: Global,
    relay: &mut Relay,
    left: &mut LeftOut,
    folder: Folder,
    block_type: TypeName,
    block: Block,
) -> Result<(), LoadFault>
    ensures { ToldAnswers (stage (world_told relay.old) left.old)
        (stage (world_told relay.new) left.new)
        block_type (taken (slip block) (origin_so folder)) result }
{
    hello(relay, block_type)?;
    take_block(alloc, relay, left, origin_of(folder), block)?;
    Ok(())
}

/// Where the blocks of a folder are read.
fn origin_of(folder: Folder) -> Origin
    ensures { result ≡ origin_so folder }
{
    match folder {
        Folder::One => Origin::OwnFile,
        Folder::Forked => Origin::StoredFile,
    }
}

//! A file of merged blocks, loaded block by block.

ghost use Rattle.std.specs.Prelude.{◌≡◌, ◌≤◌, List};
ghost use Rattle.std.specs.List.{AllByRecursion};
ghost use Rattle.block_relay.specs.Chronicle.{world_told};
ghost use Rattle.relay_model.specs.Worlds.{World};
ghost use Rattle.shelf_load.specs.Loading.{FileAnswers, IsBadBundle, IsBundleRead, IsLoaded, IsPart, TakenFile};
ghost use Rattle.shelf_load.specs.Merging.{BlockAnswers, EndAnswers};
ghost use Rattle.shelf_load.specs.Taking.{stage};

use crate::heads::greet;
use crate::left_out::LeftOut;
use crate::put_by::Origin;
use crate::taking::take_block;
use block_record::Block;
use block_relay::Relay;
use file_reader::FileReader;
use one_block::{FileFault, decode_at, end_place};
use outer_world::{FileName, Shelf};
use shelf_check::{LoadFault, bad_file, with_name};
use std::alloc::Global;

/// Takes the blocks of a file of merged blocks, one after another.
pub(crate) fn load_bundle<S: Shelf>(
    alloc: Global,
    relay: &mut Relay,
    left: &mut LeftOut,
    shelf: &mut S,
    name: &FileName,
) -> Result<(), LoadFault>
    ensures answer { (w : World) (older : List TakenFile)
        → IsLoaded w older (stage (world_told relay.old) left.old)
        → AllByRecursion (IsPart (S.files shelf.old)) older
        → FileAnswers (IsBundleRead (S.files shelf.old)) (IsBadBundle (S.files shelf.old))
        (S.files shelf.old) name.now w older (stage (world_told relay.new) left.new)
        (S.shelf_faults shelf.old) (S.shelf_faults shelf.new) result }
    ensures files { S.files shelf.new ≡ S.files shelf.old }
    ensures staged { S.staged shelf.new ≡ S.staged shelf.old }
    ensures later { S.shelf_faults shelf.old ≤ S.shelf_faults shelf.new }
{
    let name = FileName::new(alloc, name.as_bytes())?;
    let mut file = FileReader::open(alloc, name);
    file.fill(shelf)?;
    greet(alloc, relay, &file)?;
    let mut some = false;
    while let Some(block) = next_block(alloc, &file)? {
        take_block(alloc, relay, left, Origin::StoredFile, block)?;
        some = true;
        file.advance();
        file.fill(shelf)?;
    }
    end_bundle(alloc, &file, some)?;
    Ok(())
}

/// The block of the message that stands next in a file, if one does.
fn next_block(alloc: Global, file: &FileReader) -> Result<Option<Block>, LoadFault>
    ensures { BlockAnswers file.now file.now.left result }
{
    match file.message() {
        Some(message) => {
            let at = file.place().saturating_add(4);
            match decode_at(alloc, message.as_bytes(), at) {
                Ok(block) => Ok(Some(block)),
                Err(fault) => Err(with_name(alloc, file.name(), fault)),
            }
        }
        None => Ok(None),
    }
}

/// A file of which no message is left is whole, and some block was read in it; else it is bad.
fn end_bundle(alloc: Global, file: &FileReader, some: bool) -> Result<(), LoadFault>
    ensures { EndAnswers file.now some result }
{
    if some && file.fault().is_none() {
        Ok(())
    } else {
        let place = end_place(file.fault(), file.bytes_read() as usize);
        Err(bad_file(alloc, file.name(), place))
    }
}

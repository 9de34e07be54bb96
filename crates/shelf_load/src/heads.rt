//! The heads of files, each of which tells the kind of its blocks.

ghost use Rattle.block_relay.specs.Chronicle.{world_told};
ghost use Rattle.shelf_load.specs.Greeting.{GreetAnswers, HeadAnswers};

use block_record::{Kind, TypeName, Version};
use block_relay::{KindFault, Relay};
use file_reader::FileReader;
use one_block::{StoreFault, copy_type, end_place};
use shelf_check::{LoadFault, bad_file};
use std::alloc::Global;

/// Tells the relay the type of a file's blocks. A file without a whole header is bad at its end.
pub(crate) fn greet(alloc: Global, relay: &mut Relay, file: &FileReader) -> Result<(), LoadFault>
    ensures { HeadAnswers (world_told relay.old) (world_told relay.new) file.now result }
{
    match file.block_type() {
        Some(block_type) => {
            let block_type = copy_type(block_type)?;
            hello(relay, block_type)?;
            Ok(())
        }
        None => {
            let place = end_place(file.fault(), file.bytes_read() as usize);
            Err(bad_file(alloc, file.name(), place))
        }
    }
}

/// Tells the relay the type of a file's blocks, which are of version 3.0. At an error nothing has
/// changed.
pub(crate) fn hello(relay: &mut Relay, block_type: TypeName) -> Result<(), LoadFault>
    ensures { GreetAnswers (world_told relay.old) (world_told relay.new) block_type result }
{
    let kind = Kind {
        version: Version::V3,
        block_type,
    };
    match relay.hello(&kind) {
        Ok(()) => Ok(()),
        Err(KindFault::KindClash { held, offered }) => Err(LoadFault::KindClash { held, offered }),
        Err(KindFault::Mem) => Err(LoadFault::Store(StoreFault::Mem)),
    }
}

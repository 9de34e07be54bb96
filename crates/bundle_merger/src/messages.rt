//! Blocks staged as a container, one record at a time.

ghost use Rattle.std.specs.Prelude.{◌≡◌, ◌≤◌, IfErr, OnOk};
ghost use Rattle.std.specs.Arc.{arc_value};
ghost use Rattle.block_record.specs.Records.{record_text};
ghost use Rattle.dbin_file.specs.Messages.{message_text};
ghost use Rattle.outer_world.specs.Shelves.{with_piece};
ghost use Rattle.bundle_merger.specs.Containers.{blocks_of, bundle_text, messages_text};
ghost use Rattle.bundle_merger.specs.Writes.{Refuses};

use block_record::{Block, Kind, push_record};
use dbin_file::header;
use one_block::StoreFault;
use outer_world::Shelf;
use std::alloc::{AllocError, Global};
use std::sync::Arc;

/// Adds a container of the blocks' records to the staged text, block by block, with a buffer for one
/// message.
pub fn stage_blocks<S: Shelf>(
    alloc: Global,
    shelf: &mut S,
    blocks: &[Arc<Block>],
    kind: &Kind,
) -> Result<(), StoreFault>
    ensures staged { OnOk result (S.staged shelf.new
        ≡ with_piece (S.staged shelf.old) (bundle_text kind.now (blocks_of blocks.now))) }
    ensures files { S.files shelf.new ≡ S.files shelf.old }
    ensures cause { IfErr result
        (λ fault. Refuses fault (S.shelf_faults shelf.old) (S.shelf_faults shelf.new)) }
    ensures later { S.shelf_faults shelf.old ≤ S.shelf_faults shelf.new }
{
    let head = header(alloc, &kind.block_type)?;
    shelf.stage(head.as_slice())?;
    stage_messages(alloc, shelf, blocks)?;
    Ok(())
}

/// Adds the messages of the blocks' records to the staged text.
fn stage_messages<S: Shelf>(
    alloc: Global,
    shelf: &mut S,
    blocks: &[Arc<Block>],
) -> Result<(), StoreFault>
    ensures staged { OnOk result (S.staged shelf.new
        ≡ with_piece (S.staged shelf.old) (messages_text (blocks_of blocks.now))) }
    ensures files { S.files shelf.new ≡ S.files shelf.old }
    ensures cause { IfErr result
        (λ fault. Refuses fault (S.shelf_faults shelf.old) (S.shelf_faults shelf.new)) }
    ensures later { S.shelf_faults shelf.old ≤ S.shelf_faults shelf.new }
{
    let mut text = Vec::new(alloc);
    for block in blocks {
        frame(alloc, block, &mut text)?;
        shelf.stage(text.as_slice())?;
    }
    Ok(())
}

/// Makes a buffer hold the message of a block's record, and nothing else.
fn frame(alloc: Global, block: &Block, text: &mut Vec<u8>) -> Result<(), AllocError>
    ensures { OnOk result (text.new.items ≡ message_text (record_text block.now)) }
{
    text.clear();
    text.extend_from_slice(&[0; 4])?;
    push_record(block, text)?;
    let (length, record) = text.as_mut_slice().split_at_mut(4);
    length.copy_from_slice(&(record.len() as u32).to_be_bytes());
    Ok(())
}

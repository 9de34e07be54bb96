//! A source of blocks that reads on where it stopped.

ghost use Rattle.std.specs.Prelude.{◌≡◌, ◌≤◌, IfOk, IfErr, IfSome};
ghost use Rattle.block_record.specs.Slips.{slip as slip_of};
ghost use Rattle.file_source.specs.Sources.{FetchRefused};
ghost use Rattle.file_source.specs.Steps.{IsReadCause};

use crate::places::{find, is_asked};
use crate::search::next_block;
use block_record::{Block, Slip};
use file_reader::FileReader;
use one_block::StoreFault;
use outer_world::Shelf;
use std::alloc::Global;

/// Gives blocks of a shelf, and reads a run of blocks that stand one after another in one file once.
#[derive(Drop)]
pub struct BlockSource {
    /// The file of the block that was given last, read to after that block.
    file: Option<FileReader>,
}

impl BlockSource {
    /// A source that has read nothing.
    pub fn new() -> BlockSource {
        BlockSource { file: None }
    }

    /// The block with this slip: the next one in the file of the block before, where it is that one,
    /// and else as `fetch` gives it. Only a call of the shelf that fails, or want of memory, keeps it
    /// from looking further after that file.
    pub fn fetch_next<S: Shelf>(
        &mut self,
        alloc: Global,
        shelf: &mut S,
        slip: &Slip,
    ) -> Result<Block, StoreFault>
        ensures asked { IfOk result (λ block. slip_of block ≡ slip.now) }
        ensures refused { IfErr result (FetchRefused (S.files shelf.old) slip.now
            (S.shelf_faults shelf.old) (S.shelf_faults shelf.new)) }
        ensures files { S.files shelf.new ≡ S.files shelf.old }
        ensures staged { S.staged shelf.new ≡ S.staged shelf.old }
        ensures later { S.shelf_faults shelf.old ≤ S.shelf_faults shelf.new }
    {
        if let Some(block) = self.read_on(alloc, shelf, slip)? {
            return Ok(block);
        }
        let (block, file) = find(alloc, shelf, slip)?;
        self.file = Some(file);
        Ok(block)
    }

    /// The block with this slip, where it is the next one of the file that is kept. The file is given
    /// up where it is not.
    fn read_on<S: Shelf>(
        &mut self,
        alloc: Global,
        shelf: &mut S,
        slip: &Slip,
    ) -> Result<Option<Block>, StoreFault>
        ensures asked { IfOk result (λ found. IfSome found (λ block. slip_of block ≡ slip.now)) }
        ensures cause { IfErr result (IsReadCause (S.shelf_faults shelf.old) (S.shelf_faults shelf.new)) }
        ensures files { S.files shelf.new ≡ S.files shelf.old }
        ensures staged { S.staged shelf.new ≡ S.staged shelf.old }
        ensures later { S.shelf_faults shelf.old ≤ S.shelf_faults shelf.new }
    {
        let Some(mut file) = self.file.take() else {
            return Ok(None);
        };
        match next_block(alloc, shelf, &mut file) {
            Ok(Some(block)) if is_asked(&block, slip) => {
                file.advance();
                self.file = Some(file);
                Ok(Some(block))
            }
            Ok(_) | Err(StoreFault::ShelfBad { .. }) => Ok(None),
            Err(fault) => Err(fault),
        }
    }
}

//! What a piece of a node's text says.

ghost use Rattle.std.specs.Prelude.{◌≡◌, ◌≤◌, ℕ, List, IfOk, map};
ghost use Rattle.std.specs.Option.{option_copied};
ghost use Rattle.block_record.specs.Slips.{slip};
ghost use Rattle.block_relay.specs.Chronicle.{world_told};
ghost use Rattle.block_reader.specs.Changes.{shelved};
ghost use Rattle.block_reader.specs.Kept.{AreOwn, KeepsTold};
ghost use Rattle.own_laws.specs.Away.{TakesAway};
ghost use Rattle.fire_lines.specs.Reader.{state_after};
ghost use Rattle.node_feed.specs.Growing.{IsGrown};
ghost use Rattle.node_feed.specs.Outcomes.{BadLineAnswers, ReadAnswers, outside};
ghost use Rattle.node_feed.specs.Readers.{IsPieceRead};

use crate::greeting::feed_run;
use block_reader::OwnFiles;
use block_record::{Block, Kind, ReaderName};
use block_relay::Relay;
use fire_lines::{LineFault, LineReader};
use one_block::StoreFault;
use outer_world::Shelf;
use replay_text::push_bad_line;
use std::alloc::{AllocError, Global};

/// Reads a piece, and gives the first bad line, if there is one.
pub(crate) fn read_piece(
    lines: &mut LineReader,
    piece: &[u8],
    blocks: &mut Vec<Block>,
) -> Result<Option<LineFault>, AllocError>
    ensures read { (text : List ℕ) → lines.old ≡ state_after lines.old.max text
        → IfOk result (λ bad. IsPieceRead lines.old.max text piece.now bad lines.new
        (map slip blocks.old.items) (map slip blocks.new.items)) }
    ensures limit { lines.new.max ≡ lines.old.max }
{
    match lines.feed(piece, blocks) {
        Ok(()) => Ok(None),
        Err(LineFault::Mem) => Err(AllocError),
        Err(bad) => Ok(Some(bad)),
    }
}

/// Takes the blocks that were read of a run into the relay, and then tells the bad line after them.
/// Answers whether the reader is over.
pub(crate) fn feed_read<S: Shelf>(
    alloc: Global,
    relay: &mut Relay,
    shelf: &mut S,
    name: &ReaderName,
    own: &mut OwnFiles,
    kind: Option<&Kind>,
    blocks: &mut Vec<Block>,
    bad: Option<LineFault>,
    out: &mut Vec<u8>,
) -> Result<bool, StoreFault>
    requires own { AreOwn (S.files shelf.old) own.old }
    ensures answer { ReadAnswers name.now (option_copied kind.entry) (map slip blocks.old.items) bad
        (outside relay.old (S.files shelf.old) own.old (S.shelf_faults shelf.old) out.old.items)
        (outside relay.new (S.files shelf.new) own.new (S.shelf_faults shelf.new) out.new.items)
        result }
    ensures grows { IsGrown relay.old relay.new }
    ensures own { AreOwn (S.files shelf.new) own.new }
    ensures away { TakesAway name.now (shelved (S.files shelf.old) own.old)
        (shelved (S.files shelf.new) own.new) }
    ensures kept { KeepsTold (S.files shelf.old) (world_told relay.old)
        → KeepsTold (S.files shelf.new) (world_told relay.new) }
    ensures later { S.shelf_faults shelf.old ≤ S.shelf_faults shelf.new }
{
    if feed_run(alloc, relay, shelf, name, own, kind, blocks, out)? {
        return Ok(true);
    }
    let is_over = tell_bad(name, bad, out)?;
    Ok(is_over)
}

/// Tells a bad line, where there is one. Answers whether there is.
fn tell_bad(
    name: &ReaderName,
    bad: Option<LineFault>,
    out: &mut Vec<u8>,
) -> Result<bool, AllocError>
    ensures { BadLineAnswers name.now bad out.old.items out.new.items result }
{
    match bad {
        None => Ok(false),
        Some(fault) => {
            push_bad_line(name.as_bytes(), fault, out)?;
            Ok(true)
        }
    }
}

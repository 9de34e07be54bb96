//! A reader of a replay.

ghost use Rattle.std.specs.Prelude.{◌≡◌, ◌≤◌, [], ◌++◌, ℕ, List, false, true, IfErr, OnErr, OnOk};
ghost use Rattle.std.specs.Result.{IsOk};
ghost use Rattle.block_record.specs.Words.{GrowsByFront};
ghost use Rattle.block_relay.specs.Chronicle.{world_told};
ghost use Rattle.block_reader.specs.Changes.{shelved};
ghost use Rattle.block_reader.specs.Kept.{AreOwn, KeepsTold};
ghost use Rattle.own_laws.specs.Away.{TakesAway};
ghost use Rattle.fire_lines.specs.Reader.{state_after};
ghost use Rattle.node_feed.specs.Feeding.{fed_by};
ghost use Rattle.node_feed.specs.Growing.{IsGrown};
ghost use Rattle.node_feed.specs.Outcomes.{outside};
ghost use Rattle.node_feed.specs.Readers.{IsFed, IsStoppedFeed, OverAnswers, PieceAnswers, end_lines, ended, node_state};

use crate::reading::{feed_read, read_piece};
use block_reader::OwnFiles;
use block_record::{Block, ReaderName};
use block_relay::Relay;
use fire_lines::LineReader;
use one_block::StoreFault;
use outer_world::Shelf;
use replay_text::push_over;
use std::alloc::{AllocError, Global};
use std::marker::Model;

/// A reader of a replay. Contracts see its name, how far the text of its node's run was read, and whether
/// it is over.
#[derive(Drop)]
pub struct NodeReader {
    name: ReaderName,
    lines: LineReader,
    /// The blocks of a piece, kept for their room.
    blocks: Vec<Block>,
    is_over: bool,
}

impl Model for NodeReader {
    ghost use Rattle.node_feed.specs.Readers.{NodeState};

    ghost Value = { NodeState };

    ghost view = { λ r. record { name = r.name; lines = r.lines; over = r.is_over } };
}

impl NodeReader {
    /// A reader of this name, which takes lines of at most `max` bytes. Its node has told nothing.
    pub fn new(alloc: Global, name: ReaderName, max: usize) -> NodeReader
        ensures { result ≡ node_state name (state_after max []) false }
    {
        NodeReader {
            name,
            lines: LineReader::new(alloc, max),
            blocks: Vec::new(alloc),
            is_over: false,
        }
    }

    /// Its name.
    pub fn name(&self) -> &ReaderName
        ensures { result.now ≡ self.now.name }
    {
        &self.name
    }

    /// Takes a further piece of what its node wrote: the relay is told the kind of the run, where it is
    /// known, and then takes the blocks of the lines that end in the piece, one after another. What became
    /// of each is told, and so is a bad line after them. A kind that the relay refuses, a block that is
    /// refused and a bad line are each the reader's end: nothing of the piece is taken or told after them.
    ///
    /// A refusal of the shelf itself, and want of memory, are no end of the reader, and have no line. Where
    /// there is no memory for what is read of the piece, no block of it is taken.
    pub fn feed<S: Shelf>(
        &mut self,
        alloc: Global,
        relay: &mut Relay,
        shelf: &mut S,
        own: &mut OwnFiles,
        piece: &[u8],
        out: &mut Vec<u8>,
    ) -> Result<(), StoreFault>
        requires own { AreOwn (S.files shelf.old) own.old }

        // A reader that was over writes its line, and nothing else changes.
        ensures over { self.old.over ≡ true → OverAnswers self.old.name
            (outside relay.old (S.files shelf.old) own.old (S.shelf_faults shelf.old) out.old.items)
            (outside relay.new (S.files shelf.new) own.new (S.shelf_faults shelf.new) out.new.items)
            result }
        ensures stays { self.old.over ≡ true → self.new ≡ self.old }

        // Whatever text of the run was fed before, in any pieces: what the piece brings was brought and
        // told, or the first blocks of it were, up to one whose file has another block's name.
        ensures fed { self.old.over ≡ false → (text : List ℕ)
            → self.old.lines ≡ state_after self.old.lines.max text
            → OnOk result (IsFed text piece.now self.old self.new
            (outside relay.old (S.files shelf.old) own.old (S.shelf_faults shelf.old) out.old.items)
            (outside relay.new (S.files shelf.new) own.new (S.shelf_faults shelf.new)
            out.new.items)) }

        // At a refusal a front of its blocks was brought and told, and perhaps the next one was brought.
        ensures front { self.old.over ≡ false → (text : List ℕ)
            → self.old.lines ≡ state_after self.old.lines.max text
            → IfErr result (IsStoppedFeed text piece.now self.old
            (outside relay.old (S.files shelf.old) own.old (S.shelf_faults shelf.old) out.old.items)
            (outside relay.new (S.files shelf.new) own.new (S.shelf_faults shelf.new)
            out.new.items)) }

        // Its lines are a front of those that the piece brings.
        ensures lines { self.old.over ≡ false → (text : List ℕ)
            → self.old.lines ≡ state_after self.old.lines.max text
            → OnErr result (GrowsByFront out.old.items out.new.items
            (fed_by self.old.name self.old.lines.max text piece.now relay.old).lines) }

        // Whatever the answer is, it is the same reader, and what was told before of the relay stays.
        ensures named { self.new.name ≡ self.old.name }
        ensures limit { self.new.lines.max ≡ self.old.lines.max }
        ensures grows { IsGrown relay.old relay.new }

        // Each own file is there with its block, no file changed but those of this reader, and what told
        // files keep of the relay's world they go on to keep.
        ensures own { AreOwn (S.files shelf.new) own.new }
        ensures away { TakesAway self.old.name (shelved (S.files shelf.old) own.old)
            (shelved (S.files shelf.new) own.new) }
        ensures kept { KeepsTold (S.files shelf.old) (world_told relay.old)
            → KeepsTold (S.files shelf.new) (world_told relay.new) }
        ensures later { S.shelf_faults shelf.old ≤ S.shelf_faults shelf.new }
    {
        if self.is_over {
            push_over(self.name.as_bytes(), out)?;
            return Ok(());
        }
        self.is_over = self.feed_piece(alloc, relay, shelf, own, piece, out)?;
        Ok(())
    }

    /// Takes a piece, where the reader is not over, and answers whether it is then.
    fn feed_piece<S: Shelf>(
        &mut self,
        alloc: Global,
        relay: &mut Relay,
        shelf: &mut S,
        own: &mut OwnFiles,
        piece: &[u8],
        out: &mut Vec<u8>,
    ) -> Result<bool, StoreFault>
        requires own { AreOwn (S.files shelf.old) own.old }
        ensures answer { (text : List ℕ) → self.old.lines ≡ state_after self.old.lines.max text
            → PieceAnswers text piece.now self.old self.new
            (outside relay.old (S.files shelf.old) own.old (S.shelf_faults shelf.old) out.old.items)
            (outside relay.new (S.files shelf.new) own.new (S.shelf_faults shelf.new)
            out.new.items) result }
        ensures named { self.new.name ≡ self.old.name }
        ensures limit { self.new.lines.max ≡ self.old.lines.max }
        ensures goes_on { self.new.over ≡ self.old.over }
        ensures grows { IsGrown relay.old relay.new }
        ensures own { AreOwn (S.files shelf.new) own.new }
        ensures away { TakesAway self.old.name (shelved (S.files shelf.old) own.old)
            (shelved (S.files shelf.new) own.new) }
        ensures kept { KeepsTold (S.files shelf.old) (world_told relay.old)
            → KeepsTold (S.files shelf.new) (world_told relay.new) }
        ensures later { S.shelf_faults shelf.old ≤ S.shelf_faults shelf.new }
    {
        self.blocks.clear();
        let bad = read_piece(&mut self.lines, piece, &mut self.blocks)?;
        let is_over = feed_read(
            alloc,
            relay,
            shelf,
            &self.name,
            own,
            self.lines.kind(),
            &mut self.blocks,
            bad,
            out,
        )?;
        Ok(is_over)
    }

    /// Its node's run ends, and a new one begins: what was read of it is dropped. A reader that is over
    /// stays so, and writes its line.
    pub fn end(&mut self, out: &mut Vec<u8>) -> Result<(), AllocError>
        ensures reader { self.new ≡ ended self.old }
        ensures lines { OnOk result (out.new.items ≡ out.old.items ++ end_lines self.old) }
        ensures err { OnErr result (out.new.items ≡ out.old.items) }
        ensures ends { self.old.over ≡ false → IsOk result }
    {
        if self.is_over {
            // It stays over.
            push_over(self.name.as_bytes(), out)?;
            return Ok(());
        }
        self.lines.end();
        Ok(())
    }
}

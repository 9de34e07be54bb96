//! The reader of a run's lines.

ghost use Rattle.std.specs.Prelude.{◌≡◌, ◌++◌, ℕ, List, Some, Err, [], map};
ghost use Rattle.std.specs.Option.{option_copied};
ghost use Rattle.block_record.specs.declared.blocks.Slip.{Slip};
ghost use Rattle.block_record.specs.Slips.{slip};
ghost use Rattle.fire_lines.specs.Line.{says, init_says, block_says, kind_of, may_be_fire, is_too_long};
ghost use Rattle.fire_lines.specs.Parts.{words_left, without_cr as cut_cr};
ghost use Rattle.fire_lines.specs.Text.{tail_fault, next_line as line_after};
ghost use Rattle.block_record.specs.Words.{Answers, GrowsBy};
ghost use Rattle.fire_lines.specs.Reader.{state_after, kept, kind_after, slips_of, fault_of, line_says, with_line, with_tail, without_memory, UnlessMem, IsRead, IsCutShort};

use crate::faults::LineFault;
use crate::fields::read_block;
use crate::init::read_kind;
use crate::words::{Words, goes_on, is_long, split_once, without_cr};
use block_record::{Block, Kind};
use std::alloc::Global;
use std::marker::Model;
use std::mem;

/// A reader of the lines of one node's run.
#[derive(Drop)]
pub struct LineReader {
    alloc: Global,
    max: usize,
    kind: Option<Kind>,
    lines: u64,
    fault: Option<LineFault>,
    /// The line in progress, unless it is passed over.
    partial: Vec<u8>,
    /// The line in progress is passed over, and `partial` is empty.
    passes: bool,
    /// The last payload that was decoded, kept for its room.
    decoded: Vec<u8>,
}

impl Model for LineReader {
    ghost use Rattle.std.specs.Prelude.{◌≡◌, [], cond, None, Some, IsTrue};
    ghost use Rattle.fire_lines.specs.Line.{may_be_fire};
    ghost use Rattle.fire_lines.specs.Reader.{ReaderState};

    ghost Value = { ReaderState };

    ghost view = { λ r. record {
      max = r.max;
      kind = r.kind;
      lines = r.lines;
      fault = r.fault;
      partial = cond r.passes None (Some r.partial.items);
    } };

    ghost invariant = { λ r. IsTrue (may_be_fire r.partial.items)
        × (IsTrue r.passes → r.partial.items ≡ []) };
}

impl LineReader {
    /// A reader that takes lines of at most `max` bytes, the LF and a CR before it not counted.
    pub fn new(alloc: Global, max: usize) -> LineReader
        ensures { result ≡ state_after max [] }
    {
        LineReader {
            alloc,
            max,
            kind: None,
            lines: 0,
            fault: None,
            partial: Vec::new(alloc),
            passes: false,
            decoded: Vec::new(alloc),
        }
    }

    /// Reads a further piece of the run's text, and appends the blocks of the lines that end in it,
    /// up to the first bad line.
    pub fn feed(&mut self, piece: &[u8], out: &mut Vec<Block>) -> Result<(), LineFault>
        // Whatever text of the run was fed before, in any pieces, all of it was read, or a front of
        // it where there was no memory.
        ensures read { (text : List ℕ) → self.old ≡ state_after self.old.max text
            → UnlessMem result (IsRead self.old.max text piece.now result self.new
            (map slip out.old.items) (map slip out.new.items)) }
        ensures memory { (text : List ℕ) → self.old ≡ state_after self.old.max text
            → result ≡ Err LineFault.Mem → IsCutShort self.old.max text piece.now self.new
            (map slip out.old.items) (map slip out.new.items) }
        ensures limit { self.new.max ≡ self.old.max }
        ensures keeps { result ≡ Err LineFault.Mem → self.new.fault ≡ Some LineFault.Mem }

        // After a fault it answers the same fault, and gives nothing.
        ensures stopped { (fault : LineFault) → self.old.fault ≡ Some fault
            → (result ≡ Err fault) × (self.new ≡ self.old) × (out.new ≡ out.old) }
    {
        if let Some(fault) = self.fault {
            return Err(fault);
        }
        self.take_piece(piece, out)
    }

    /// Drops what was read of the run, its kind and its fault, and begins a new run at line 1.
    pub fn end(&mut self)
        ensures { self.new ≡ state_after self.old.max [] }
    {
        self.kind = None;
        self.lines = 0;
        self.fault = None;
        self.partial.clear();
        self.passes = false;
    }

    /// The number of lines that were read of the run, up to the first bad one.
    pub fn lines(&self) -> u64
        ensures { result ≡ self.now.lines }
    {
        self.lines
    }

    /// The kind of the run, once its opening line was read.
    pub fn kind(&self) -> Option<&Kind>
        ensures { option_copied result ≡ self.now.kind }
    {
        self.kind.as_ref()
    }

    /// Takes a piece, where there was no fault before.
    fn take_piece(&mut self, piece: &[u8], out: &mut Vec<Block>) -> Result<(), LineFault>
        requires { self.old.fault ≡ None }
        ensures read { (text : List ℕ) → self.old ≡ state_after self.old.max text
            → UnlessMem result (IsRead self.old.max text piece.now result self.new
            (map slip out.old.items) (map slip out.new.items)) }
        ensures memory { (text : List ℕ) → self.old ≡ state_after self.old.max text
            → result ≡ Err LineFault.Mem → IsCutShort self.old.max text piece.now self.new
            (map slip out.old.items) (map slip out.new.items) }
        ensures limit { self.new.max ≡ self.old.max }
        ensures keeps { result ≡ Err LineFault.Mem → self.new.fault ≡ Some LineFault.Mem }
    {
        let mut rest = piece;
        while let Some((front, more)) = split_once(rest, b'\n') {
            self.end_line(front, out)?;
            rest = more;
        }
        self.keep(rest)
    }

    /// Ends the line in progress by these bytes, and takes it.
    fn end_line(&mut self, front: &[u8], out: &mut Vec<Block>) -> Result<(), LineFault>
        ensures answer { (tail : List ℕ) → self.old.partial ≡ kept tail → UnlessMem result
            (Answers result (fault_of (line_says self.old (tail ++ front.now)))) }
        ensures state { (tail : List ℕ) → self.old.partial ≡ kept tail → UnlessMem result
            (self.new ≡ with_line (line_says self.old (tail ++ front.now)) self.old) }
        ensures grows { (tail : List ℕ) → self.old.partial ≡ kept tail → UnlessMem result
            (GrowsBy (map slip out.old.items) (map slip out.new.items)
            (slips_of (line_says self.old (tail ++ front.now)))) }
        ensures memory { (tail : List ℕ) → self.old.partial ≡ kept tail
            → result ≡ Err LineFault.Mem → self.new ≡ without_memory self.old }
        ensures none { result ≡ Err LineFault.Mem
            → (self.new.fault ≡ Some LineFault.Mem) × (out.new.items ≡ out.old.items) }
        ensures limit { self.new.max ≡ self.old.max }
    {
        if self.partial.is_empty() && !self.passes {
            return self.take_line(without_cr(front), out);
        }
        self.keep(front)?;
        self.take_kept(out)
    }

    /// Takes the line in progress, which is whole.
    fn take_kept(&mut self, out: &mut Vec<Block>) -> Result<(), LineFault>
        ensures answer { (tail : List ℕ) → self.old.partial ≡ kept tail → UnlessMem result
            (Answers result (fault_of (line_says self.old tail))) }
        ensures state { (tail : List ℕ) → self.old.partial ≡ kept tail → UnlessMem result
            (self.new ≡ with_line (line_says self.old tail) self.old) }
        ensures grows { (tail : List ℕ) → self.old.partial ≡ kept tail → UnlessMem result
            (GrowsBy (map slip out.old.items) (map slip out.new.items)
            (slips_of (line_says self.old tail))) }
        ensures memory { result ≡ Err LineFault.Mem → self.new ≡ without_memory self.old }
        ensures none { result ≡ Err LineFault.Mem → out.new.items ≡ out.old.items }
        ensures limit { self.new.max ≡ self.old.max }
    {
        if self.passes {
            // A line that is passed over says as little as an empty one.
            return self.take_line(b"".as_slice(), out);
        }
        let line = mem::replace(&mut self.partial, Vec::new(self.alloc));
        let taken = self.take_line(without_cr(line.as_slice()), out);
        self.partial = line;
        self.partial.clear();
        taken
    }

    /// Takes a line, without its LF and the CR before it, and begins the next.
    fn take_line(&mut self, line: &[u8], out: &mut Vec<Block>) -> Result<(), LineFault>
        ensures answer { UnlessMem result (Answers result
            (fault_of (says self.old.max (line_after self.old.lines) self.old.kind line.now))) }
        ensures state { UnlessMem result (self.new ≡ with_line
            (says self.old.max (line_after self.old.lines) self.old.kind line.now) self.old) }
        ensures grows { UnlessMem result (GrowsBy (map slip out.old.items) (map slip out.new.items)
            (slips_of (says self.old.max (line_after self.old.lines) self.old.kind line.now))) }
        ensures memory { result ≡ Err LineFault.Mem → self.new ≡ without_memory self.old }
        ensures none { result ≡ Err LineFault.Mem → out.new.items ≡ out.old.items }
        ensures limit { self.new.max ≡ self.old.max }
    {
        let taken = self.read_line(line, out);
        self.partial.clear();
        self.passes = false;
        match taken {
            Ok(()) => self.lines = next_line(self.lines),
            Err(fault) => self.fault = Some(fault),
        }
        taken
    }

    /// Reads what a line says, and appends the block that it brings.
    fn read_line(&mut self, line: &[u8], out: &mut Vec<Block>) -> Result<(), LineFault>
        ensures answer { UnlessMem result (Answers result
            (fault_of (says self.old.max (line_after self.old.lines) self.old.kind line.now))) }
        ensures state { UnlessMem result (self.new ≡ record self.old {
          kind = kind_after
              (says self.old.max (line_after self.old.lines) self.old.kind line.now) self.old.kind;
        }) }
        ensures grows { UnlessMem result (GrowsBy (map slip out.old.items) (map slip out.new.items)
            (slips_of (says self.old.max (line_after self.old.lines) self.old.kind line.now))) }
        ensures memory { result ≡ Err LineFault.Mem
            → (self.new ≡ self.old) × (out.new.items ≡ out.old.items) }
        ensures limit { self.new.max ≡ self.old.max }
    {
        let Some(text) = line.strip_prefix(b"FIRE ".as_slice()) else {
            return Ok(());
        };
        let number = next_line(self.lines);
        if line.len() > self.max {
            return Err(LineFault::TooLong { line: number });
        }
        let mut words = Words::new(text);
        match words.next_word() {
            Some(word) if word == b"INIT".as_slice() => self.read_init(&mut words, number),
            Some(word) if word == b"BLOCK".as_slice() => self.read_block(&mut words, number, out),
            _ => Ok(()),
        }
    }

    /// Reads an opening line. The first gives the run its kind, and the others repeat it.
    fn read_init(&mut self, words: &mut Words<'_>, line: u64) -> Result<(), LineFault>
        ensures answer { UnlessMem result (Answers result
            (fault_of (init_says line self.old.kind (kind_of (words_left words.old))))) }
        ensures state { UnlessMem result (self.new ≡ record self.old {
          kind = kind_after
              (init_says line self.old.kind (kind_of (words_left words.old))) self.old.kind;
        }) }
        ensures memory { result ≡ Err LineFault.Mem → self.new ≡ self.old }
        ensures limit { self.new.max ≡ self.old.max }
    {
        let named = read_kind(words).ok_or(LineFault::BadInit { line })?;
        match &self.kind {
            None => {
                self.kind = Some(named.to_kind(self.alloc)?);
                Ok(())
            }
            Some(kind) if named.is_kind(kind) => Ok(()),
            Some(_) => Err(LineFault::InitChanged { line }),
        }
    }

    /// Reads a block line, and appends its block.
    fn read_block(
        &mut self,
        words: &mut Words<'_>,
        line: u64,
        out: &mut Vec<Block>,
    ) -> Result<(), LineFault>
        ensures answer { UnlessMem result (Answers result
            (fault_of (block_says line self.old.kind (words_left words.old)))) }
        ensures state { self.new ≡ self.old }
        ensures grows { UnlessMem result (GrowsBy (map slip out.old.items) (map slip out.new.items)
            (slips_of (block_says line self.old.kind (words_left words.old)))) }
        ensures memory { result ≡ Err LineFault.Mem → out.new.items ≡ out.old.items }
    {
        if self.kind.is_none() {
            return Err(LineFault::NoInit { line });
        }
        let block = read_block(self.alloc, words, &mut self.decoded, line)?;
        out.push(block)?;
        Ok(())
    }

    /// Goes on with the line in progress, which doesn't end yet, and yet is bad where it is too long.
    fn keep(&mut self, bytes: &[u8]) -> Result<(), LineFault>
        ensures answer { (tail : List ℕ) → self.old.partial ≡ kept tail → UnlessMem result
            (Answers result
            (tail_fault self.old.max self.old.lines (cut_cr (tail ++ bytes.now)))) }
        ensures state { (tail : List ℕ) → self.old.partial ≡ kept tail → UnlessMem result
            (self.new ≡ with_tail (tail ++ bytes.now) self.old) }
        ensures memory { result ≡ Err LineFault.Mem → self.new ≡ without_memory self.old }
        ensures limit { self.new.max ≡ self.old.max }
    {
        if self.passes {
            return Ok(());
        }
        if !goes_on(self.partial.as_slice(), bytes) {
            self.passes = true;
            self.partial.clear();
            return Ok(());
        }
        if is_long(self.max, self.partial.as_slice(), bytes) {
            return self.stop(LineFault::TooLong {
                line: next_line(self.lines),
            });
        }
        match self.partial.extend_from_slice(bytes) {
            Ok(()) => Ok(()),
            Err(_) => self.stop(LineFault::Mem),
        }
    }

    /// Stops at the fault.
    fn stop(&mut self, fault: LineFault) -> Result<(), LineFault>
        ensures answer { result ≡ Err fault }
        ensures state { self.new ≡ record self.old { fault = Some fault; partial = Some [] } }
    {
        self.fault = Some(fault);
        self.partial.clear();
        self.passes = false;
        Err(fault)
    }
}

/// The number of lines after one more.
#[tactic(auto, unfolding(crate::specs::Text::next_line))]
fn next_line(lines: u64) -> u64
    ensures { result ≡ line_after lines }
{
    lines.saturating_add(1)
}

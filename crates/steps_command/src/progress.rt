//! A run of `steps` under way: what it keeps from piece to piece of its input.

ghost use Rattle.std.specs.Prelude.{◌≡◌, ◌++◌, ℕ, List, [], None, Some, IfOk, OnErr, MatchOption, MatchResult, map, reverse};
ghost use mathlib.Core.List.{IsPrefix};
ghost use Rattle.block_record.specs.declared.blocks.Slip.{Slip};
ghost use Rattle.block_record.specs.Slips.{slip};
ghost use Rattle.fire_lines.specs.Reader.{state_after, AreFurther};
ghost use Rattle.fire_lines.specs.Text.{received};
ghost use Rattle.step_text.specs.Limits.{line_max};
ghost use Rattle.step_text.specs.StepText.{step_text};
ghost use Rattle.steps_command.specs.Telling.{IsUnderWay, IsEnded, ReadsPiece, end_for, ending_seen};

use crate::following::{Follower, LIMITS};
use block_record::Block;
use fire_lines::{LineFault, LineReader, text_goes_on};
use std::alloc::{AllocError, Global};
use step_text::Refusal;

/// What ended a run before the end of its input.
#[derive(PartialEq, Eq, Debug, Drop)]
pub enum RunEnd {
    BadLine(LineFault),
    Refused(Refusal),
}

/// What a run keeps from piece to piece.
#[derive(Drop)]
pub struct Progress {
    pub reader: LineReader,
    /// What takes blocks in, and where a client stands that was told everything.
    pub follower: Follower,
    /// The step lines of the last piece.
    pub text: Vec<u8>,
}

impl Progress {
    /// A run that has taken nothing, for blocks with numbers of at least `first`.
    pub fn new(alloc: Global, first: u64) -> Result<Progress, AllocError>
        ensures { IfOk result
            (λ p. IsUnderWay first [] [] p.reader p.follower.world p.follower.place) }
    {
        Ok(Progress {
            reader: LineReader::new(alloc, LIMITS.line as usize),
            follower: Follower::new(alloc, first)?,
            text: Vec::new(alloc),
        })
    }

    /// Takes a further piece of the input, tells its steps to `text`, and says what ended the run, if
    /// the piece did.
    pub fn take_piece(&mut self, alloc: Global, piece: &[u8]) -> Result<Option<RunEnd>, AllocError>
        ensures taken { (first : ℕ) (input told : List ℕ)
            → IsUnderWay first input told self.old.reader self.old.follower.world self.old.follower.place
            → IfOk result (λ end. MatchOption end
            (IsUnderWay first (input ++ piece.now) (told ++ self.new.text.items)
            self.new.reader self.new.follower.world self.new.follower.place)
            (λ e. IsEnded first (input ++ piece.now) (told ++ self.new.text.items) (ending_seen e))) }
        ensures memory { (first : ℕ) (input told : List ℕ)
            → IsUnderWay first input told self.old.reader self.old.follower.world self.old.follower.place
            → OnErr result (IsPrefix told (step_text first (input ++ piece.now)).text) }
    {
        text_goes_on();
        self.text.clear();
        let mut blocks = Vec::new(alloc);
        let fault = read_piece(&mut self.reader, piece, &mut blocks)?;
        let refusal = self.follower.tell(blocks, &mut self.text)?;
        Ok(end_of(refusal, fault))
    }
}

/// What ended a run: a refusal comes before a bad line, which stands after the blocks.
fn end_of(refusal: Option<Refusal>, fault: Option<LineFault>) -> Option<RunEnd>
    ensures { result ≡ end_for refusal fault }
{
    match refusal {
        Some(refusal) => Some(RunEnd::Refused(refusal)),
        None => fault.map(RunEnd::BadLine),
    }
}

/// Feeds a piece to a reader that has met no bad line, and gives the first bad line, if there is one.
fn read_piece(
    reader: &mut LineReader,
    piece: &[u8],
    blocks: &mut Vec<Block>,
) -> Result<Option<LineFault>, AllocError>
    ensures read { (input : List ℕ) → reader.old ≡ state_after line_max input
        → IfOk result (λ fault. ReadsPiece input piece.now (map slip blocks.old.items)
        (map slip blocks.new.items) fault reader.new) }
{
    match reader.feed(piece, blocks) {
        Ok(()) => Ok(None),
        Err(LineFault::Mem) => Err(AllocError),
        Err(fault) => Ok(Some(fault)),
    }
}

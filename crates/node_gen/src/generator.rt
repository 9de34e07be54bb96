//! The lines of a node, number by number.

ghost use Rattle.std.specs.Prelude.{◌≡◌, ◌≤◌, ◌<◌, ◌++◌, ◌+◌, OnOk, OnErr};
ghost use mathlib.Core.List.{IsPrefix};
ghost use Rattle.node_gen.specs.Generated.{generated, lines_at, opening_line, random_at};

use crate::lines::{draws, next_random, push_lines};
use std::alloc::AllocError;
use text_parts::keep_front;

/// The greatest number of blocks on a main line.
pub const BLOCKS_MAX: u64 = 1_000_000;

/// What makes a node's lines: after the opening line, for each number those of the blocks that have
/// it on the main line, or begin beside it.
#[derive(Drop)]
pub struct Generator {
    /// The element of the random sequence.
    pub random: u64,
    /// The last number whose lines were made.
    pub num: u64,
    /// At about one of so many numbers there is a fork, and with 0 at none.
    pub forks: u64,
}

impl Generator {
    /// No lines yet, for this key.
    pub fn new(key: u64, forks: u64) -> Generator
        ensures random { result.random ≡ key }
        ensures num { result.num ≡ 0 }
        ensures forks { result.forks ≡ forks }
    {
        Generator {
            random: key,
            num: 0,
            forks,
        }
    }

    /// Appends the lines that are made at the next number. Without memory nothing has changed.
    pub fn push_next(&mut self, out: &mut Vec<u8>) -> Result<(), AllocError>
        requires { self.old.num < 1_000_000 }
        ensures num { OnOk result (self.new.num ≡ self.old.num + 1) }
        ensures random { OnOk result (self.new.random
            ≡ random_at self.old.forks (self.old.num + 1) self.old.random) }
        ensures lines { OnOk result (out.new.items ≡ out.old.items
            ++ lines_at self.old.forks (self.old.num + 1) self.new.random) }
        ensures forks { self.new.forks ≡ self.old.forks }
        ensures same { OnErr result (self.new ≡ self.old) }
        ensures err { OnErr result (out.new.items ≡ out.old.items) }
    {
        let num = self.num + 1;
        let random = random_for(self.forks, num, self.random);
        push_lines(self.forks, num, random, out)?;
        self.num = num;
        self.random = random;
        Ok(())
    }
}

/// The element of the sequence with which the blocks at a number are made, by the one before.
fn random_for(forks: u64, num: u64, x: u64) -> u64
    ensures { result ≡ random_at forks num x }
{
    if draws(forks, num) { next_random(x) } else { x }
}

/// Appends the opening line.
pub fn push_opening(out: &mut Vec<u8>) -> Result<(), AllocError>
    ensures ok { OnOk result (out.new.items ≡ out.old.items ++ opening_line) }
    ensures err { OnErr result (out.new.items ≡ out.old.items) }
{
    out.extend_from_slice(b"FIRE INIT 3.0 test.Block\n")
}

/// Appends the lines of a node: the opening line, and those of so many blocks on a main line, at most
/// 1,000,000, with forks beside it. Without memory the buffer stays as it is.
pub fn generate(key: u64, blocks: u64, forks: u64, out: &mut Vec<u8>) -> Result<(), AllocError>
    requires { blocks ≤ 1_000_000 }
    ensures ok { OnOk result (out.new.items ≡ out.old.items ++ generated key blocks forks) }
    ensures err { OnErr result (out.new.items ≡ out.old.items) }
{
    let kept = out.len();
    let pushed = push_all(key, blocks, forks, out);
    keep_front(pushed, kept, out)
}

/// The same, with a part of the lines left in the buffer where there was no memory.
fn push_all(key: u64, blocks: u64, forks: u64, out: &mut Vec<u8>) -> Result<(), AllocError>
    requires { blocks ≤ 1_000_000 }
    ensures ok { OnOk result (out.new.items ≡ out.old.items ++ generated key blocks forks) }
    ensures front { IsPrefix out.old.items out.new.items }
{
    push_opening(out)?;
    let mut generator = Generator::new(key, forks);
    while generator.num < blocks {
        generator.push_next(out)?;
    }
    Ok(())
}

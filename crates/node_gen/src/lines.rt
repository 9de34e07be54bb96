//! The lines of blocks that are made at one number.

ghost use Rattle.std.specs.Prelude.{◌≡◌, ◌≤◌, ◌++◌, OnOk, OnErr};
ghost use mathlib.Core.List.{IsPrefix};
ghost use Rattle.node_gen.specs.Generated.{block_line, draws as draws_at, fork_lines, fork_part, drawn as drawn_of, lib_of as lib_num_of, next_random as random_after_this, time_of as time_at};

use std::alloc::AllocError;
use text_parts::{Part, keep_front, push_parts};

/// Blocks whose ids begin with a letter.
#[derive(Clone, Copy)]
struct Branch {
    /// The first byte of the block's id.
    letter: u8,
    /// The first byte of its parent's.
    parent: u8,
}

/// The main line.
const MAIN: Branch = Branch {
    letter: b'm',
    parent: b'm',
};

/// A block beside it.
const SIDE: Branch = Branch {
    letter: b's',
    parent: b'm',
};

/// The child of a block beside it.
const SIDE_CHILD: Branch = Branch {
    letter: b't',
    parent: b's',
};

/// The next element of the random sequence.
pub fn next_random(x: u64) -> u64
    ensures { result ≡ random_after_this x }
{
    x.wrapping_mul(6364136223846793005)
        .wrapping_add(1442695040888963407)
}

/// What is drawn by an element of the sequence.
fn drawn(x: u64) -> u64
    ensures { result ≡ drawn_of x }
{
    x >> 33
}

/// Appends the lines that are made at a number: those of a fork, where one may be, and that of the
/// main line. Without memory the buffer stays as it is.
pub fn push_lines(forks: u64, num: u64, x: u64, out: &mut Vec<u8>) -> Result<(), AllocError>
    requires first { 1 ≤ num }
    requires last { num ≤ 1_000_000 }
    ensures ok { OnOk result (out.new.items
        ≡ out.old.items ++ fork_part forks num x ++ block_line 109 109 num x) }
    ensures err { OnErr result (out.new.items ≡ out.old.items) }
{
    let kept = out.len();
    let pushed = push_both(forks, num, x, out);
    keep_front(pushed, kept, out)
}

/// The same, with a part of them left in the buffer where there was no memory.
fn push_both(forks: u64, num: u64, x: u64, out: &mut Vec<u8>) -> Result<(), AllocError>
    requires first { 1 ≤ num }
    requires last { num ≤ 1_000_000 }
    ensures ok { OnOk result (out.new.items
        ≡ out.old.items ++ fork_part forks num x ++ block_line 109 109 num x) }
    ensures front { IsPrefix out.old.items out.new.items }
{
    push_some_fork(forks, num, x, out)?;
    push_block(MAIN, num, x, out)?;
    Ok(())
}

/// Whether at this number a fork is drawn at all.
pub fn draws(forks: u64, num: u64) -> bool
    ensures { result ≡ draws_at forks num }
{
    num >= 3 && forks != 0
}

/// Appends the lines of a fork at this number, where one may be.
fn push_some_fork(forks: u64, num: u64, x: u64, out: &mut Vec<u8>) -> Result<(), AllocError>
    requires first { 1 ≤ num }
    requires last { num ≤ 1_000_000 }
    ensures ok { OnOk result (out.new.items ≡ out.old.items ++ fork_part forks num x) }
    ensures front { IsPrefix out.old.items out.new.items }
{
    if draws(forks, num) {
        push_fork(forks, num, x, out)
    } else {
        Ok(())
    }
}

/// Appends the lines of a fork at this number, where one is drawn.
fn push_fork(forks: u64, num: u64, x: u64, out: &mut Vec<u8>) -> Result<(), AllocError>
    requires some { 1 ≤ forks }
    requires first { 1 ≤ num }
    requires last { num ≤ 1_000_000 }
    ensures ok { OnOk result (out.new.items ≡ out.old.items ++ fork_lines forks num x) }
    ensures front { IsPrefix out.old.items out.new.items }
{
    let draw = drawn(x);
    if draw % forks != 0 {
        return Ok(());
    }
    push_block(SIDE, num, x, out)?;
    if (draw / forks) % 2 == 1 {
        push_block(SIDE_CHILD, num + 1, x, out)?;
    }
    Ok(())
}

/// Appends the line of a block. Without memory the buffer stays as it is.
fn push_block(branch: Branch, num: u64, x: u64, out: &mut Vec<u8>) -> Result<(), AllocError>
    requires first { 1 ≤ num }
    requires last { num ≤ 1_000_001 }
    ensures ok { OnOk result
        (out.new.items ≡ out.old.items ++ block_line branch.letter branch.parent num x) }
    ensures err { OnErr result (out.new.items ≡ out.old.items) }
{
    let letter = [branch.letter];
    let parent = [branch.parent];
    let payload = x.to_be_bytes();
    let parts = [
        Part::Text(b"FIRE BLOCK "),
        Part::Number(num),
        Part::Text(b" "),
        Part::Text(letter.as_slice()),
        Part::Number(num),
        Part::Text(b" "),
        Part::Number(num - 1),
        Part::Text(b" "),
        Part::Text(parent.as_slice()),
        Part::Number(num - 1),
        Part::Text(b" "),
        Part::Number(lib_of(num)),
        Part::Text(b" "),
        Part::Number(time_of(num)),
        Part::Text(b" "),
        Part::Base64(payload.as_slice()),
        Part::Text(b"\n"),
    ];
    push_parts(parts.as_slice(), out)?;
    Ok(())
}

/// The number of the last block that is final under the block of this number.
fn lib_of(num: u64) -> u64
    ensures { result ≡ lib_num_of num }
{
    num.saturating_sub(10)
}

/// The time of the block of this number, in nanoseconds.
fn time_of(num: u64) -> u64
    requires { num ≤ 1_000_001 }
    ensures { result ≡ time_at num }
{
    1_500_000_000_000_000_000 + num * 1_000_000_000
}

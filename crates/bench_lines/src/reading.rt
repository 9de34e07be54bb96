//! The reader of lines alone.

use anyhow::{Result, bail};
use fire_lines::LineReader;
use std::alloc::Global;
use std::io::Read;

const PIECE_BYTES: usize = 65_536;

const LINE_BYTES_MAX: usize = 67_108_864;

const INPUT_BYTES_MAX: u64 = 1_099_511_627_776;

/// What an input had.
#[derive(Clone, Copy)]
pub struct Counts {
    pub lines: u64,
    pub blocks: u64,
}

/// Reads an input to its end, and counts its lines and blocks.
pub fn count_lines(alloc: Global, input: &mut impl Read) -> Result<Counts> {
    let mut reader = LineReader::new(alloc, LINE_BYTES_MAX);
    let mut blocks = Vec::new(alloc);
    let mut buf = [0; PIECE_BYTES];
    let mut taken: u64 = 0;
    let mut count: u64 = 0;
    while taken < INPUT_BYTES_MAX {
        let length = input.read(&mut buf)?;
        if length == 0 {
            return Ok(Counts {
                lines: reader.lines(),
                blocks: count,
            });
        }
        if reader.feed(&buf[..length], &mut blocks).is_err() {
            bail!("line {} is bad", reader.lines().saturating_add(1));
        }
        count = count.saturating_add(blocks.len() as u64);
        blocks.clear();
        taken += length as u64;
    }
    bail!("the input is too long")
}

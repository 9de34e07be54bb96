//! The parts that are measured.

use crate::reading::{hash_payloads, read_lines};
use crate::sample::Sample;
use base64::engine::general_purpose::STANDARD;
use chain_model::Step;
use reply_text::print_step;
use std::alloc::{AllocError, Global};
use step_cursor::Tail;

/// The run, and the length of the history that the step is sent from.
const TAIL: Tail = Tail {
    run: 1_764_640_800,
    seen: 21_000_064,
};

/// What is done in each round.
#[derive(Clone, Copy)]
pub enum Part {
    /// The line is printed.
    Line,
    /// The payload is put into base64.
    Base64,
    /// The line is copied.
    Copy,
    /// The line is read.
    Read,
    /// The payload is hashed.
    Hash,
}

/// Does the part so often, and gives how many bytes it wrote, read or hashed.
pub fn run_rounds(
    alloc: Global,
    part: Part,
    sample: &Sample,
    rounds: u64,
) -> Result<u64, AllocError> {
    let line = line_of(alloc, sample)?;
    match part {
        Part::Line => print_lines(line, sample, rounds),
        Part::Base64 => Ok(encode_payloads(line, sample, rounds)),
        Part::Copy => copy_lines(alloc, &line, rounds),
        Part::Read => read_lines(alloc, &line, rounds),
        Part::Hash => Ok(hash_payloads(&sample.block, rounds)),
    }
}

/// The line of the step.
fn line_of(alloc: Global, sample: &Sample) -> Result<Vec<u8>, AllocError> {
    let mut line = Vec::new(alloc);
    print_step(Step::New, &sample.block, &sample.place, &TAIL, &mut line)?;
    Ok(line)
}

/// Prints the line into this buffer, which has room for it.
fn print_lines(mut line: Vec<u8>, sample: &Sample, rounds: u64) -> Result<u64, AllocError> {
    let mut done: u64 = 0;
    for _ in 0..rounds {
        line.clear();
        print_step(Step::New, &sample.block, &sample.place, &TAIL, &mut line)?;
        done = done.saturating_add(line.len() as u64);
    }
    Ok(done)
}

/// Puts the payload into base64 in this buffer, which has room for it.
fn encode_payloads(mut text: Vec<u8>, sample: &Sample, rounds: u64) -> u64 {
    let payload = sample.block.payload.as_bytes();
    let mut done: u64 = 0;
    for _ in 0..rounds {
        let length = STANDARD.encode_slice(payload, text.as_mut_slice());
        done = done.saturating_add(length.unwrap_or(0) as u64);
    }
    done
}

/// Copies the line into a buffer that has room for it.
fn copy_lines(alloc: Global, line: &[u8], rounds: u64) -> Result<u64, AllocError> {
    let mut copy = Vec::with_capacity(alloc, line.len())?;
    let mut done: u64 = 0;
    for _ in 0..rounds {
        copy.clear();
        copy.extend_from_slice(line)?;
        done = done.saturating_add(copy.len() as u64);
    }
    Ok(done)
}

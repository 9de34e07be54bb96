//! Prints the line of a step into one buffer in memory, again and again, and beside it what the base64
//! of its payload and a copy of the line cost alone. It also reads the line, beside what one hash of
//! its payload costs. It prints how many bytes that were. Time it from outside.
#![tactic(auto)]

mod reading;
mod rounds;
mod sample;

use anyhow::{Result, bail};
use rounds::{Part, run_rounds};
use sample::{Sample, Shape, new_sample};
use std::env;

/// How often each part is done for each shape where no words are given.
const ROUNDS: u64 = 1_000;

/// The shapes where no words are given.
const SHAPES: [Shape; 4] = [
    Shape { payload: 8, id: 2 },
    Shape { payload: 8, id: 64 },
    Shape {
        payload: 1_024,
        id: 2,
    },
    Shape {
        payload: 1_024,
        id: 64,
    },
];

fn main(rt: HostRuntime) -> Result<()> {
    let words: Vec<String> = env::args(&rt)?.collect(rt.alloc())?;
    match words.as_slice() {
        [_] => {
            for shape in SHAPES.as_slice() {
                print_shape(&rt, *shape)?;
            }
        }
        [_, part, payload, id, rounds] => {
            let shape = Shape {
                payload: number_of(payload.as_str())? as usize,
                id: number_of(id.as_str())? as usize,
            };
            let sample = new_sample(rt.alloc(), shape)?;
            let part = part_of(part.as_str())?;
            let rounds = number_of(rounds.as_str())?;
            rt.println(run_rounds(rt.alloc(), part, &sample, rounds)?)?;
        }
        _ => bail!("usage: bench_replies [line|base64|copy|read|hash PAYLOAD ID ROUNDS]"),
    }
    Ok(())
}

/// Does each part for a shape, and prints how many bytes that were.
fn print_shape(rt: &HostRuntime, shape: Shape) -> Result<()> {
    let sample = new_sample(rt.alloc(), shape)?;
    let lines = run_rounds(rt.alloc(), Part::Line, &sample, ROUNDS)?;
    let base64 = run_rounds(rt.alloc(), Part::Base64, &sample, ROUNDS)?;
    let copies = run_rounds(rt.alloc(), Part::Copy, &sample, ROUNDS)?;
    let Shape { payload, id } = shape;
    rt.println(format_args!(
        "payload {payload}, ids {id}: lines {lines}, base64 {base64}, copies {copies}"
    ))?;
    print_client(rt, &sample)?;
    Ok(())
}

/// Does the parts of a client, and prints how many bytes of payload that were.
fn print_client(rt: &HostRuntime, sample: &Sample) -> Result<()> {
    let read = run_rounds(rt.alloc(), Part::Read, sample, ROUNDS)?;
    let hashed = run_rounds(rt.alloc(), Part::Hash, sample, ROUNDS)?;
    rt.println(format_args!("read {read}, hashed {hashed}"))?;
    Ok(())
}

// The part with this name.
fn part_of(word: &str) -> Result<Part> {
    match word {
        "line" => Ok(Part::Line),
        "base64" => Ok(Part::Base64),
        "copy" => Ok(Part::Copy),
        "read" => Ok(Part::Read),
        "hash" => Ok(Part::Hash),
        _ => bail!("there is no part {word:?}"),
    }
}

// The number in a word.
fn number_of(word: &str) -> Result<u64> {
    Ok(word.parse::<u64>()?)
}

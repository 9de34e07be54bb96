//! Appends numbers to a cell from several threads, each number in a turn of its own, and prints how
//! many there are in the end. The arguments are the number of threads, the number of turns of each
//! and, where a turn is to take longer, a number of rounds of arithmetic in it. Time it from
//! outside.
#![tactic(auto)]

mod numbers;
mod threads;

use anyhow::{Context, Result, bail};
use std::env;
use std::rt::Env;
use std::sync::Wait;
use std::thread::Threads;
use threads::{Plan, append_by_threads};

// The number in the word at this place.
fn number_at(words: &[String], place: usize) -> Result<u64> {
    let Some(word) = words.get(place) else {
        bail!("usage: bench_hub_history THREADS TURNS [ROUNDS]");
    };
    let text = word.as_str();
    text.parse::<u64>()
        .context(format_args!("reading {text:?}"))
}

fn plan_of(words: &[String]) -> Result<Plan> {
    let threads = number_at(words, 1)?;
    let turns = number_at(words, 2)?;
    let rounds = if words.len() > 3 {
        number_at(words, 3)?
    } else {
        0
    };
    Ok(Plan {
        threads,
        turns,
        rounds,
    })
}

fn run<R: Env + AllocGlobal + Print + Threads + Wait + Sync>(rt: &R) -> Result<()> {
    let words: Vec<String> = env::args(rt)?.collect(rt.alloc())?;
    let plan = plan_of(&words)?;
    let Some(all) = append_by_threads(rt, rt.alloc(), &plan) else {
        bail!("a turn was not had");
    };
    rt.println(all.len())?;
    Ok(())
}

fn main(rt: HostRuntime) -> Result<()> {
    run(&rt)
}

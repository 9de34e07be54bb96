//! The threads.
ghost use Rattle.std.specs.Prelude.{◌≡◌};
ghost use Rattle.hub_history.specs.Passes.{IsPassOf};

use crate::numbers::{Append, Numbers};
use anyhow::Result;
use hub_history::{HubCell, Pass};
use std::alloc::Global;
use std::sync::Wait;
use std::thread;
use std::thread::Threads;

/// How many threads take how many turns each, and how many rounds of arithmetic a turn has.
#[derive(Drop)]
pub struct Plan {
    pub threads: u64,
    pub turns: u64,
    pub rounds: u64,
}

// What one thread does.
#[derive(Drop)]
struct Work<'a> {
    hub: &'a HubCell<Numbers>,
    pass: Pass<Numbers>,
    from: u64,
    turns: u64,
    rounds: u64,
    ghost own: { IsPassOf hub.now pass },
}

fn append_all<R: Wait>(
    rt: &R,
    hub: &HubCell<Numbers>,
    pass: &mut Pass<Numbers>,
    turns: u64,
    from: u64,
    rounds: u64,
) -> bool
    requires { IsPassOf hub.now pass.old }
    ensures { IsPassOf hub.now pass.new }
{
    for _ in 0..turns {
        match hub.turn(rt, pass, Append { from, rounds }) {
            Ok(Ok(())) => {}
            _ => return false,
        }
    }
    true
}

impl Work<'_> {
    fn run<R: Wait>(self, rt: &R) -> bool {
        let Work {
            hub,
            mut pass,
            from,
            turns,
            rounds,
        } = self;
        append_all(rt, hub, &mut pass, turns, from, rounds)
    }
}

fn split_work<'a>(
    alloc: Global,
    hub: &'a HubCell<Numbers>,
    pass: &mut Pass<Numbers>,
    plan: &Plan,
) -> Option<Vec<Work<'a>>>
    requires { IsPassOf hub.now pass.old }
    ensures { IsPassOf hub.now pass.new }
{
    let mut work = Vec::new(alloc);
    for from in 0..plan.threads {
        let mine = hub.split(pass);
        work.push(Work {
            hub,
            pass: mine,
            from,
            turns: plan.turns,
            rounds: plan.rounds,
        })
        .ok()?;
    }
    Some(work)
}

/// The list after all turns of all threads.
pub fn append_by_threads<R: Threads + Wait + Sync>(
    rt: &R,
    alloc: Global,
    plan: &Plan,
) -> Option<Numbers> {
    let items = Vec::new(alloc);
    let Ok((hub, mut pass)) = HubCell::open(alloc, Numbers { items }) else {
        return None;
    };
    let work = split_work(alloc, &hub, &mut pass, plan)?;
    let done = thread::map_vec(rt, work, &|w: Work| w.run(rt)).ok()?;
    if !done.iter().all(|went| *went) {
        return None;
    }
    hub.close(rt, pass).ok()
}

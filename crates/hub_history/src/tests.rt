//! Threads that append numbers in turns, and one thread with two passes.
ghost use Rattle.std.specs.Prelude.{◌≡◌, ◌++◌, [], ◌∷◌, true, false, nat_le, IfOk, IfSome, OnErr};
ghost use mathlib.Core.List.{IsPrefix};
ghost use Rattle.hub_history.specs.Passes.{IsPassOf, leads_of};

use super::*;
use std::alloc::{AllocError, Global};
use std::sync::Wait;
use std::test::*;
use std::thread;
use std::thread::Threads;

// The least number that counts as marked.
const MARKED_FROM: u64 = 5000;

/// A list of numbers, of which those from 5,000 on are marked.
#[derive(Drop)]
pub struct Numbers {
    items: Vec<u64>,
}

impl Chronicle for Numbers {
    type Entry = u64;

    ghost entries_of = { λ s. s.items.items };

    ghost marked = { λ n. nat_le 5000 n };

    fn entries(&self) -> u64 {
        self.items.len() as u64
    }
}

/// Appends one number.
#[derive(Drop)]
pub struct Append {
    value: u64,
}

impl Job<Numbers> for Append {
    type Out = Result<(), AllocError>;

    ghost marks = { λ j. nat_le 5000 j.value };

    ghost needs = { λ j before. Unit {0} };

    ghost promises = { λ j before after out. IfOk out (λ _. after ≡ before ++ j.value ∷ [])
        × OnErr out (after ≡ before) };

    fn run(self, value: &mut Numbers) -> Result<(), AllocError> {
        value.items.push(self.value)?;
        Ok(())
    }
}

// Appends the numbers from `from` on, `count` of them, in a turn each. True where all went through.
fn append_all<R: Wait>(
    rt: &R,
    hub: &HubCell<Numbers>,
    pass: &mut Pass<Numbers>,
    from: u64,
    count: u64,
) -> bool
    requires { IsPassOf hub.now pass.old }
    ensures { IsPassOf hub.now pass.new }
{
    for i in 0..count {
        let Some(value) = from.checked_add(i) else {
            return false;
        };
        if value >= MARKED_FROM {
            return false;
        }
        match hub.turn(rt, pass, Append { value }) {
            Ok(Ok(())) => {}
            _ => return false,
        }
    }
    true
}

// What one thread does.
#[derive(Drop)]
struct Work<'a> {
    hub: &'a HubCell<Numbers>,
    pass: Pass<Numbers>,
    from: u64,
    count: u64,
    ghost own: { IsPassOf hub.now pass },
}

impl Work<'_> {
    fn run<R: Wait>(self, rt: &R) -> bool {
        let Work {
            hub,
            mut pass,
            from,
            count,
        } = self;
        append_all(rt, hub, &mut pass, from, count)
    }
}

// Opens an empty cell.
fn open_empty(alloc: Global) -> Option<(HubCell<Numbers>, Pass<Numbers>)>
    ensures { IfSome result (λ (hub, pass). IsPassOf hub pass × (leads_of pass ≡ true)) }
{
    let items = Vec::new(alloc);
    match HubCell::open(alloc, Numbers { items }) {
        Ok(opened) => Some(opened),
        Err(_) => None,
    }
}

// What each of so many threads does, with a pass of its own.
fn split_work<'a>(
    alloc: Global,
    hub: &'a HubCell<Numbers>,
    pass: &mut Pass<Numbers>,
    threads: u64,
    count: u64,
) -> Option<Vec<Work<'a>>>
    requires { IsPassOf hub.now pass.old }
    ensures { IsPassOf hub.now pass.new }
{
    let mut work = Vec::new(alloc);
    for k in 0..threads {
        let from = k.checked_mul(count)?;
        let mine = hub.split(pass);
        work.push(Work {
            hub,
            pass: mine,
            from,
            count,
        })
        .ok()?;
    }
    Some(work)
}

// The numbers below threads * count, appended by so many threads, `count` numbers each.
fn append_by_threads<R: Threads + Wait + Sync>(
    rt: &R,
    alloc: Global,
    threads: u64,
    count: u64,
) -> Option<Numbers> {
    let (hub, mut pass) = open_empty(alloc)?;
    let work = split_work(alloc, &hub, &mut pass, threads, count)?;
    let done = thread::map_vec(rt, work, &|w: Work| w.run(rt)).ok()?;
    if !done.iter().all(|went| *went) {
        return None;
    }
    hub.close(rt, pass).ok()
}

// Whether the list has the numbers of each thread, each once and in order, and no others.
fn is_in_order(alloc: Global, all: &Numbers, threads: u64, count: u64) -> Option<bool> {
    let mut next = Vec::new(alloc);
    for k in 0..threads {
        next.push(k.checked_mul(count)?).ok()?;
    }
    for x in &all.items {
        let n = next.get_mut(usize::try_from(x.checked_div(count)?).ok()?)?;
        if *n != *x {
            return Some(false);
        }
        *n = n.checked_add(1)?;
    }
    Some(all.items.len() as u64 == threads.checked_mul(count)?)
}

#[test]
fn two_threads_append_a_thousand_each(rt: HostRuntime) -> Result<(), Fail> {
    let all = append_by_threads(&rt, rt.alloc(), 2, 1000).ok_or("both append, and it closes")?;
    assert_eq!(rt; all.items.len(), 2000);
    assert_eq!(rt; is_in_order(rt.alloc(), &all, 2, 1000), Some(true));
    Ok(())
}

#[test]
fn twenty_one_threads_append_two_hundred_each(rt: HostRuntime) -> Result<(), Fail> {
    let all = append_by_threads(&rt, rt.alloc(), 21, 200).ok_or("all append, and it closes")?;
    assert_eq!(rt; all.items.len(), 4200);
    assert_eq!(rt; is_in_order(rt.alloc(), &all, 21, 200), Some(true));
    Ok(())
}

// A turn by each of two passes, then the first pass sees what both did.
fn append_by_passes<R: Wait>(rt: &R, alloc: Global) -> Option<(u64, u64, u64, Numbers)> {
    let mut items = Vec::new(alloc);
    items.push(7).ok()?;
    let Ok((hub, mut pass)) = HubCell::open(alloc, Numbers { items }) else {
        return None;
    };
    let mut other = hub.split(&mut pass);
    hub.turn(rt, &mut pass, Append { value: 5001 }).ok()?.ok()?;
    hub.turn(rt, &mut other, Append { value: 9 }).ok()?.ok()?;
    let before = pass.seen();
    hub.meet(&mut pass, &mut other);
    let met = pass.seen();
    hub.join(&mut pass, other);
    let joined = pass.seen();
    Some((before, met, joined, hub.close(rt, pass).ok()?))
}

#[test]
fn two_passes_take_a_turn_each(rt: HostRuntime) -> Result<(), Fail> {
    let (before, met, joined, all) = append_by_passes(&rt, rt.alloc()).ok_or("all turns are had")?;
    assert_eq!(rt; (before, met, joined), (2, 3, 3));
    assert_eq!(rt; all.items.as_slice(), [7, 5001, 9].as_slice());
    Ok(())
}

#[test]
fn the_first_pass_leads_until_it_is_joined(rt: HostRuntime) -> Result<(), Fail> {
    let (hub, mut pass) = open_empty(rt.alloc()).ok_or("it opens")?;
    let mut other = hub.split(&mut pass);
    assert!(rt; pass.leads() && !other.leads());
    hub.join(&mut other, pass);
    assert!(rt; other.leads());
    assert!(rt; hub.close(&rt, other).is_ok());
    Ok(())
}

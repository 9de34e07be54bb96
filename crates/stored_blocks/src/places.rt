//! Places of a history in the order of their numbers.

ghost use Rattle.std.specs.Prelude.{◌≡◌, ◌+◌, ◌<◌, ◌≤◌, [], length, map, true, false, nat_lt, OnOk, IfOk};
ghost use Rattle.std.specs.List.{AllWithin, filter, insert};
ghost use Rattle.std.specs.VecDeque.{deque_len, deque_capacity};
ghost use Rattle.bundle_model.specs.Members.{Among};
ghost use Rattle.stored_blocks.specs.Places.{Adds, Drops, IsBefore, Rises};

use std::alloc::{AllocError, Global};
use std::collections::VecDeque;
use std::marker::Model;

/// A place of a history, by the number of its block.
#[derive(Clone, Copy, PartialEq, Eq, PartialOrd, Ord, Debug)]
pub struct NumberedPlace {
    pub num: u64,
    pub place: usize,
}

/// Places in the order of their numbers, those of one number in their own order. Contracts see them,
/// and for how many more there is room.
#[derive(Drop)]
pub struct PlacesByNumber {
    items: VecDeque<NumberedPlace>,
    room: usize,
}

impl Model for PlacesByNumber {
    ghost use Rattle.std.specs.Prelude.{◌≤◌, ◌+◌};
    ghost use Rattle.std.specs.VecDeque.{deque_len, deque_capacity};
    ghost use Rattle.stored_blocks.specs.Places.{Numbered, Rises};

    ghost Value = { Numbered };

    ghost view = { λ t. record { places = t.items.items; room = t.room } };

    ghost invariant = { λ t. Rises t.items.items
        × (deque_len t.items + t.room ≤ deque_capacity t.items) };
}

impl PlacesByNumber {
    /// No place.
    pub fn new(alloc: Global) -> PlacesByNumber
        ensures places { result.places ≡ [] }
        ensures room { result.room ≡ 0 }
    {
        PlacesByNumber {
            items: VecDeque::new(alloc),
            room: 0,
        }
    }

    /// How many places there are. They rise.
    pub fn len(&self) -> usize
        ensures len { result ≡ length self.now.places }
        ensures rises { Rises self.now.places }
    {
        self.items.len()
    }

    /// Makes room for that many more places.
    pub fn reserve(&mut self, more: usize) -> Result<(), AllocError>
        ensures places { self.new.places ≡ self.old.places }
        ensures ok { OnOk result (more ≤ self.new.room) }
        ensures room { self.old.room ≤ self.new.room }
    {
        if more > self.room {
            self.items.reserve(more)?;
            self.room = more;
        }
        Ok(())
    }

    /// Adds a place, for which there is room. It takes no memory.
    pub fn insert(&mut self, place: NumberedPlace)
        requires room { 0 < self.old.room }
        requires fresh { Among self.old.places place → ⊥ }
        ensures added { Adds place self.old.places self.new.places }
        ensures room { self.new.room + 1 ≡ self.old.room }
    {
        let at = self.index_for(&place);
        put(&mut self.items, at, place);
        self.room -= 1;
    }

    /// The index at which a place belongs that is not there.
    fn index_for(&self, place: &NumberedPlace) -> usize
        requires fresh { Among self.now.places place.now → ⊥ }
        ensures range { result ≤ length self.now.places }
        ensures before { AllWithin (λ x. IsBefore x place.now) self.now.places 0 result }
        ensures after { AllWithin (IsBefore place.now)
            self.now.places result (length self.now.places) }
    {
        match self.items.binary_search(place) {
            Ok(at) => at,
            Err(at) => at,
        }
    }

    /// Takes a place out, where it is there, and says whether it was.
    pub fn remove(&mut self, place: &NumberedPlace) -> bool
        ensures was { result ≡ true → Among self.old.places place.now }
        ensures dropped { Drops place.now self.old.places self.new.places }
        ensures other { result ≡ false → Among self.old.places place.now → ⊥ }
        ensures room { self.new.room ≡ self.old.room }
    {
        match self.items.binary_search(place) {
            Ok(at) => {
                let _ = self.items.remove(at);
                true
            }
            Err(_) => false,
        }
    }

    /// The places with numbers below the limit, in their own order.
    pub fn below(&self, alloc: Global, limit: u64) -> Result<Vec<usize>, AllocError>
        ensures { IfOk result (λ places. places.items ≡ map (λ x. x.place) (filter (λ x. nat_lt x.num limit) self.now.places)) }
    {
        let mut places = Vec::new(alloc);
        for index in 0..self.items.len() {
            let Some(x) = self.items.get(index) else {
                return Ok(places);
            };
            if x.num >= limit {
                return Ok(places);
            }
            places.push(x.place)?;
        }
        Ok(places)
    }
}

/// Puts a place in at an index, where there is room. It takes no memory.
fn put(items: &mut VecDeque<NumberedPlace>, at: usize, place: NumberedPlace)
    requires room { deque_len items.old < deque_capacity items.old }
    requires range { at ≤ deque_len items.old }
    ensures items { items.new.items ≡ insert items.old.items at place }
    ensures len { deque_len items.new ≡ deque_len items.old + 1 }
    ensures capacity { deque_capacity items.old ≤ deque_capacity items.new }
{
    let _ = items.insert(at, place);
}

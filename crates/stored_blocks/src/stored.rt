//! Which blocks of a history are stored, found without a scan.

ghost use Rattle.std.specs.Prelude.{◌≡◌, ◌+◌, ◌-◌, ◌<◌, ◌≤◌, ◌^◌, [], filter, length, map, nat_lt, IfOk, OnOk, IfSome, Some};
ghost use Rattle.std.specs.List.{slice_get};
ghost use Rattle.block_record.specs.declared.blocks.Slip.{Slip as SlipOf};
ghost use Rattle.block_tree.specs.Places.{slip_at, slip_of};
ghost use Rattle.bundle_model.specs.Bundles.{finals_up};
ghost use Rattle.stored_blocks.specs.Places.{Rises};
ghost use Rattle.stored_blocks.specs.Stored.{HasBegun, HasGrown, HasReleased, IsIndex, RestIsOff, final_stored, front_count, is_given_up, is_past, next_stored, no_forks};

use crate::finals::{final_at, numbered};
use crate::places::PlacesByNumber;
use fork_db::ForkDb;
use std::alloc::{AllocError, Global};
use std::marker::Model;

/// Which blocks of a history are stored: those whose payloads the history gave up. Contracts see what
/// is kept of it.
#[derive(Drop)]
pub struct StoredBlocks {
    /// How many blocks were taken in.
    seen: usize,
    /// How many final blocks were taken in.
    finals: u64,
    /// How many final blocks from the root on are stored, one after another.
    front: u64,
    /// The place of the last stored final block.
    last: Option<usize>,
    stored: u64,
    stored_finals: u64,
    /// The blocks off the final path that are not stored.
    off: PlacesByNumber,
}

impl Model for StoredBlocks {
    ghost use Rattle.stored_blocks.specs.Stored.{Index};

    ghost Value = { Index };

    ghost view = { λ t. record {
      seen = t.seen;
      finals = t.finals;
      front = t.front;
      last = t.last;
      stored = t.stored;
      stored_finals = t.stored_finals;
      off = t.off.places;
      room = t.off.room;
    } };
}

impl StoredBlocks {
    /// No block.
    pub fn new(alloc: Global) -> StoredBlocks
        ensures index { IsIndex no_forks result }
        ensures room { result.room ≡ 0 }
    {
        StoredBlocks {
            seen: 0,
            finals: 0,
            front: 0,
            last: None,
            stored: 0,
            stored_finals: 0,
            off: PlacesByNumber::new(alloc),
        }
    }

    /// How many blocks are stored.
    pub fn stored(&self) -> u64
        ensures { result ≡ self.now.stored }
    {
        self.stored
    }

    /// How many final blocks are stored.
    pub fn stored_finals(&self) -> u64
        ensures { result ≡ self.now.stored_finals }
    {
        self.stored_finals
    }

    /// How many final blocks from the root on are stored, one after another.
    pub(crate) fn front(&self) -> u64
        ensures { result ≡ self.now.front }
    {
        self.front
    }

    /// How many final blocks were taken in.
    pub(crate) fn finals(&self) -> u64
        ensures { result ≡ self.now.finals }
    {
        self.finals
    }

    /// The place of the last stored final block.
    pub(crate) fn last(&self) -> Option<usize>
        ensures { result ≡ self.now.last }
    {
        self.last
    }

    /// The places of the blocks off the final path with numbers under `below` that are not stored.
    pub(crate) fn off_below(&self, alloc: Global, below: u64) -> Result<Vec<usize>, AllocError>
        ensures rises { Rises self.now.off }
        ensures places { IfOk result (λ places. places.items
            ≡ map (λ x. x.place) (filter (λ x. nat_lt x.num below) self.now.off)) }
    {
        let _ = self.off.len();
        let places = self.off.below(alloc, below)?;
        Ok(places)
    }

    /// Makes room for that many more blocks.
    pub fn reserve(&mut self, more: usize) -> Result<(), AllocError>
        ensures same { self.new ≡ record self.old { room = self.new.room } }
        ensures ok { OnOk result (more ≤ self.new.room) }
    {
        self.off.reserve(more)
    }

    /// Takes in the blocks that came to the history, each with its payload. It takes no memory.
    pub fn grow(&mut self, db: &ForkDb)
        requires { HasGrown self.old db.now }
        ensures index { IsIndex db.now self.new }
        ensures stored { self.new.stored ≡ self.old.stored }
    {
        // The history is one, and its claims agree.
        let _ = db.len();
        self.add_blocks(db);
        self.add_finals(db);
    }

    /// Takes in the blocks that are not taken in yet.
    fn add_blocks(&mut self, db: &ForkDb)
        requires begun { HasBegun db.now self.old }
        requires rest { RestIsOff db.now self.old }
        requires room { length db.now.history ≤ self.old.seen + self.old.room }
        ensures begun { HasBegun db.now self.new }
        ensures whole { self.new.seen ≡ length db.now.history }
        ensures finals { self.new.finals ≡ self.old.finals }
        ensures stored { self.new.stored ≡ self.old.stored }
    {
        for _ in self.seen..db.len() as usize {
            self.add_block(db);
        }
    }

    /// Takes in the next block.
    fn add_block(&mut self, db: &ForkDb)
        requires begun { HasBegun db.now self.old }
        requires rest { RestIsOff db.now self.old }
        requires more { self.old.seen < length db.now.history }
        requires room { 0 < self.old.room }
        ensures begun { HasBegun db.now self.new }
        ensures rest { RestIsOff db.now self.new }
        ensures seen { self.new.seen ≡ self.old.seen + 1 }
        ensures finals { self.new.finals ≡ self.old.finals }
        ensures stored { self.new.stored ≡ self.old.stored }
        ensures room { self.new.room + 1 ≡ self.old.room }
    {
        let _ = db.len();
        self.off.insert(numbered(db, self.seen));
        self.seen += 1;
    }

    /// Takes in the final blocks that are not taken in yet.
    fn add_finals(&mut self, db: &ForkDb)
        requires begun { HasBegun db.now self.old }
        requires whole { self.old.seen ≡ length db.now.history }
        ensures index { IsIndex db.now self.new }
        ensures stored { self.new.stored ≡ self.old.stored }
    {
        for _ in self.finals..db.len() {
            let Some(at) = final_at(db, self.finals) else {
                return;
            };
            self.add_final(db, at);
        }
    }

    /// Takes in the next final block.
    fn add_final(&mut self, db: &ForkDb, at: usize)
        requires begun { HasBegun db.now self.old }
        requires whole { self.old.seen ≡ length db.now.history }
        requires next { slip_at db.now.history at
            ≡ slice_get (finals_up db.now.history) self.old.finals }
        requires range { at < length db.now.history }
        ensures begun { HasBegun db.now self.new }
        ensures whole { self.new.seen ≡ self.old.seen }
        ensures finals { self.new.finals ≡ self.old.finals + 1 }
        ensures stored { self.new.stored ≡ self.old.stored }
    {
        let _ = db.len();
        if self.off.remove(&numbered(db, at)) {
            self.finals += 1;
            return;
        }
        self.add_stored(at);
        self.finals += 1;
    }

    /// Counts the next final block, at a place, which is stored.
    fn add_stored(&mut self, at: usize)
        requires front { self.old.front ≤ self.old.finals }
        requires stored { self.old.stored_finals ≤ self.old.finals }
        requires room { self.old.finals < 2 ^ 64 - 1 }
        ensures { self.new ≡ next_stored self.old at }
    {
        if self.front == self.finals {
            self.front += 1;
        }
        self.last = Some(at);
        self.stored_finals += 1;
    }

    /// Takes notice that the payload at a place was given up. It takes no memory.
    pub fn store(&mut self, db: &ForkDb, at: usize)
        requires { HasReleased self.old db.now at }
        ensures index { IsIndex db.now self.new }
        ensures stored { self.new.stored ≡ self.old.stored + 1 }
        ensures room { self.new.room ≡ self.old.room }
    {
        let _ = db.len();
        if self.off.remove(&numbered(db, at)) {
            self.stored += 1;
            return;
        }
        self.store_final(db, at);
        self.stored += 1;
    }

    /// Counts a final block that came to be stored.
    fn store_final(&mut self, db: &ForkDb, at: usize)
        requires range { at < length db.now.history }
        requires last { IfSome self.old.last (λ l. l < length db.now.history) }
        requires front { self.old.front
            ≤ front_count (is_given_up db.now) (finals_up db.now.history) }
        requires finals { self.old.finals ≡ length (finals_up db.now.history) }
        requires room { self.old.stored_finals < 2 ^ 64 - 1 }
        ensures { (y : SlipOf) → slip_at db.now.history at ≡ Some y
            → self.new ≡ final_stored db.now y at self.old }
    {
        if self.is_past_last(db, at) {
            self.last = Some(at);
        }
        self.front = front_from(db, self.front, self.finals);
        self.stored_finals += 1;
    }

    /// Whether a block is above the last stored final one.
    fn is_past_last(&self, db: &ForkDb, at: usize) -> bool
        requires range { at < length db.now.history }
        requires last { IfSome self.now.last (λ l. l < length db.now.history) }
        ensures { (y : SlipOf) → slip_at db.now.history at ≡ Some y
            → result ≡ is_past (slip_of db.now.history self.now.last) y }
    {
        match self.last {
            Some(last) => db.slip(last).num < db.slip(at).num,
            None => true,
        }
    }
}

/// How many final blocks from the root on are stored, one after another: at least so many.
fn front_from(db: &ForkDb, from: u64, finals: u64) -> u64
    requires front { from ≤ front_count (is_given_up db.now) (finals_up db.now.history) }
    requires finals { finals ≡ length (finals_up db.now.history) }
    ensures { result ≡ front_count (is_given_up db.now) (finals_up db.now.history) }
{
    let _ = db.len();
    for index in from..finals {
        let Some(at) = final_at(db, index) else {
            return index;
        };
        if db.held(at).is_some() {
            return index;
        }
    }
    finals
}

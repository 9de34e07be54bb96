//! A source that gives its bytes in pieces.

ghost use Rattle.std.specs.Prelude.{◌≡◌, Some, Ok, length};
ghost use Rattle.std.specs.Io.{ReadsAtMost};
ghost use Rattle.std.specs.Io.KnownBytes.{ReadConsumes};
ghost use Rattle.outer_world.specs.Causes.{HasCause};
ghost use Rattle.outer_world.specs.Told.{ReadGives};
ghost use Rattle.memory_world.specs.Pieces.{piece_limit, piece_size, rest_of, uncut};

use crate::memory::MemorySource;
use outer_world::{Failed, Source};
use std::marker::Model;

/// Lengths that are taken one by one. Contracts see those that are left.
#[derive(Drop)]
struct Lengths {
    items: Vec<usize>,
    next: usize,
}

impl Model for Lengths {
    ghost use Rattle.std.specs.Prelude.{List, ℕ, ◌≤◌, drop, length};

    ghost Value = { List ℕ };

    ghost view = { λ l. drop l.next l.items.items };

    ghost invariant = { λ l. l.next ≤ length l.items.items };
}

impl Lengths {
    fn new(items: Vec<usize>) -> Self
        ensures { result ≡ items.items }
    {
        Lengths { items, next: 0 }
    }

    /// Takes the next length, and says how many bytes fit into it and into the room.
    fn take_limit(&mut self, room: usize) -> usize
        ensures limit { result ≡ piece_limit self.old room }
        ensures rest { self.new ≡ rest_of self.old }
    {
        match self.items.get(self.next) {
            Some(length) => {
                let limit = room.min((*length).max(1));
                self.next += 1;
                limit
            }
            None => room,
        }
    }
}

/// A source of bytes in memory that gives them in pieces. It never fails. Contracts see the bytes
/// that it gave, those that it has left, and the lengths of the pieces that come next.
#[derive(Drop)]
pub struct PiecesSource {
    source: MemorySource,
    lengths: Lengths,
}

impl Model for PiecesSource {
    ghost use Rattle.memory_world.specs.Pieces.{PiecesState};

    ghost Value = { PiecesState };

    ghost view = { λ s. record { given = s.source.given; left = s.source.left; lengths = s.lengths } };
}

impl PiecesSource {
    /// A source of these bytes. Each read takes one length of the list and gives no more bytes than
    /// that, where a 0 counts as 1, and a read past the list's end gives as many as fit.
    pub fn new(bytes: Vec<u8>, lengths: Vec<usize>) -> Self
        ensures { result ≡ uncut bytes.items lengths.items }
    {
        PiecesSource {
            source: MemorySource::new(bytes),
            lengths: Lengths::new(lengths),
        }
    }
}

impl Source for PiecesSource {
    ghost left = { λ s. Some s.left };

    ghost given = { λ s. Some s.given };

    ghost read_faults = { λ _. 0 };

    fn read(&mut self, buf: &mut [u8]) -> Result<usize, Failed>
        ensures bound { ReadsAtMost result buf.new }
        ensures left { ReadConsumes (Some self.old.left) (Some self.new.left) result buf.new }
        ensures given { ReadGives (Some self.old.given) (Some self.new.given) result buf.new }
        ensures cause { HasCause 0 0 result }
        ensures size { result ≡ Ok (piece_size self.old (length buf.old)) }
        ensures rest { self.new.lengths ≡ rest_of self.old.lengths }
    {
        let limit = self.lengths.take_limit(buf.len());
        self.source.read(&mut buf[..limit])
    }
}

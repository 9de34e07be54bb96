//! Sources and sinks in memory, which never fail.

ghost use Rattle.std.specs.Prelude.{◌≡◌, Some, Ok, IfOk, length, min};
ghost use Rattle.std.specs.Option.{option_copied};
ghost use Rattle.std.specs.Io.{ReadsAtMost, WritesAtMost};
ghost use Rattle.std.specs.Io.KnownBytes.{ReadConsumes};
ghost use Rattle.outer_world.specs.Causes.{HasCause};
ghost use Rattle.outer_world.specs.Told.{ReadGives, TakesSome, WriteGrows};
ghost use Rattle.memory_world.specs.Memory.{empty, fresh, sink_after};

use outer_world::{Failed, Sink, Source};
use std::alloc::{AllocError, Global};
use std::marker::Model;

/// A source of bytes in memory. Contracts see the bytes that it gave and those that it has left.
#[derive(Drop)]
pub struct MemorySource {
    bytes: Vec<u8>,
    at: usize,
}

impl Model for MemorySource {
    ghost use Rattle.std.specs.Prelude.{◌≤◌, length, take, drop};
    ghost use Rattle.memory_world.specs.Memory.{SourceState};

    ghost Value = { SourceState };

    ghost view = { λ s. record { given = take s.at s.bytes.items; left = drop s.at s.bytes.items } };

    ghost invariant = { λ s. s.at ≤ length s.bytes.items };
}

impl MemorySource {
    /// A source of these bytes.
    pub fn new(bytes: Vec<u8>) -> Self
        ensures { result ≡ fresh bytes.items }
    {
        MemorySource { bytes, at: 0 }
    }
}

impl Source for MemorySource {
    ghost left = { λ s. Some s.left };

    ghost given = { λ s. Some s.given };

    ghost read_faults = { λ _. 0 };

    /// Gives as many bytes as fit.
    fn read(&mut self, buf: &mut [u8]) -> Result<usize, Failed>
        ensures bound { ReadsAtMost result buf.new }
        ensures left { ReadConsumes (Some self.old.left) (Some self.new.left) result buf.new }
        ensures given { ReadGives (Some self.old.given) (Some self.new.given) result buf.new }
        ensures cause { HasCause 0 0 result }
        ensures size { result ≡ Ok (min (length buf.old) (length self.old.left)) }
    {
        let count = buf.len().min(self.bytes.len() - self.at);
        buf[..count].copy_from_slice(&self.bytes[self.at..self.at + count]);
        self.at += count;
        Ok(count)
    }
}

/// A sink in memory with room for a number of bytes. Contracts see the room and the bytes that were
/// written, or none from the write on that passed the room.
#[derive(Drop)]
pub struct MemorySink {
    bytes: Vec<u8>,
    room: usize,
    full: bool,
}

impl Model for MemorySink {
    ghost use Rattle.std.specs.Prelude.{◌≤◌, None, Some, if◌then◌else◌, vec_len, vec_capacity};
    ghost use Rattle.memory_world.specs.Memory.{SinkState};

    ghost Value = { SinkState };

    ghost view = { λ s. record { room = s.room; written = if s.full then None else Some s.bytes.items } };

    ghost invariant = { λ s. (vec_len s.bytes ≤ s.room) × (s.room ≤ vec_capacity s.bytes) };
}

impl MemorySink {
    /// A sink with room for this number of bytes. It takes their memory now.
    pub fn new(alloc: Global, room: usize) -> Result<Self, AllocError>
        ensures { IfOk result (λ s. s ≡ empty room) }
    {
        Ok(MemorySink {
            bytes: Vec::with_capacity(alloc, room)?,
            room,
            full: false,
        })
    }

    /// The bytes that were written, or none where they passed the room.
    pub fn written(&self) -> Option<&[u8]>
        ensures { option_copied result ≡ self.now.written }
    {
        if self.full {
            None
        } else {
            Some(self.bytes.as_slice())
        }
    }
}

impl Sink for MemorySink {
    ghost written = { λ s. s.written };

    ghost write_faults = { λ _. 0 };

    /// Takes the whole piece, and keeps it where there is room.
    fn write(&mut self, piece: &[u8]) -> Result<usize, Failed>
        ensures bound { WritesAtMost result piece.now }
        ensures some { TakesSome result piece.now }
        ensures written { WriteGrows self.old.written self.new.written result piece.now }
        ensures cause { HasCause 0 0 result }
        ensures all { result ≡ Ok (length piece.now) }
        ensures after { self.new ≡ sink_after self.old piece.now }
    {
        let fits = piece.len() <= self.room - self.bytes.len();
        if !fits || self.bytes.extend_from_slice(piece).is_err() {
            self.full = true;
        }
        Ok(piece.len())
    }
}

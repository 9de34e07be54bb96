//! Where bytes come from, and where they go.

ghost use Rattle.std.specs.Prelude.{List, ℕ, Option};
ghost use Rattle.std.specs.Io.{ReadsAtMost, WritesAtMost};
ghost use Rattle.std.specs.Io.KnownBytes.{ReadConsumes};
ghost use Rattle.outer_world.specs.Causes.{HasCause};
ghost use Rattle.outer_world.specs.Told.{ReadGives, TakesSome, WriteGrows};

/// The outside failed. The count of the object that failed has risen.
#[derive(Clone, Copy, Debug, PartialEq, Eq)]
pub struct Failed;

/// Where bytes come from.
pub trait Source {
    /// The bytes that are left, where they are told.
    ghost left: { Self → Option (List ℕ) };

    /// The bytes that were given, where they are told.
    ghost given: { Self → Option (List ℕ) };

    /// How often a read has failed.
    ghost read_faults: { Self → ℕ };

    /// Fills the front of the buffer. No bytes in a buffer that is not empty are the end of input.
    fn read(&mut self, buf: &mut [u8]) -> Result<usize, Failed>
        ensures bound { ReadsAtMost result buf.new }
        ensures left { ReadConsumes (left self.old) (left self.new) result buf.new }
        ensures given { ReadGives (given self.old) (given self.new) result buf.new }
        ensures cause { HasCause (read_faults self.old) (read_faults self.new) result };
}

/// Where bytes go.
pub trait Sink {
    /// The bytes that were written, where they are told.
    ghost written: { Self → Option (List ℕ) };

    /// How often a write has failed.
    ghost write_faults: { Self → ℕ };

    /// Takes the front of the piece, and of a piece with bytes at least one.
    fn write(&mut self, piece: &[u8]) -> Result<usize, Failed>
        ensures bound { WritesAtMost result piece.now }
        ensures some { TakesSome result piece.now }
        ensures written { WriteGrows (written self.old) (written self.new) result piece.now }
        ensures cause { HasCause (write_faults self.old) (write_faults self.new) result };
}

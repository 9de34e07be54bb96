//! Whole texts, and how long one may be.

ghost use Rattle.std.specs.Prelude.{OnOk, OnErr};
ghost use Rattle.outer_world.specs.Causes.{HasCause};
ghost use Rattle.outer_world.specs.Told.{Grows, GrowsByFront};

use crate::traits::{Failed, Sink};

/// The number of bytes after which a text that has not ended is given up.
pub const TEXT_BYTES_MAX: usize = 1 << 40;

/// Writes all of the text, or a front of it.
pub fn write_whole<K: Sink>(sink: &mut K, text: &[u8]) -> Result<(), Failed>
    ensures text { OnOk result (Grows (K.written sink.old) (K.written sink.new) text.now) }
    ensures front { OnErr result
        (GrowsByFront (K.written sink.old) (K.written sink.new) text.now) }
    ensures cause { HasCause (K.write_faults sink.old) (K.write_faults sink.new) result }
{
    let mut rest = text;
    while !rest.is_empty() {
        let count = sink.write(rest)?;
        rest = &rest[count..];
    }
    Ok(())
}

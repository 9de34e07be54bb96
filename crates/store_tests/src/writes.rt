//! Whole texts written to a sink that takes one byte a call.

use outer_world::{Failed, Sink, write_whole};
use std::test::Fail;

// Takes one byte a call. The call with this number, counted from 0, fails.
#[derive(Drop)]
struct FlakySink {
    taken: Vec<u8>,
    calls: u64,
    fails: u64,
    faults: u64,
}

impl Sink for FlakySink {
    ghost use Rattle.std.specs.Prelude.{None};

    ghost written = { λ _. None };

    ghost write_faults = { λ s. s.faults };

    fn write(&mut self, piece: &[u8]) -> Result<usize, Failed> {
        let Some(byte) = piece.first() else {
            return Ok(0);
        };
        if self.calls == self.fails || self.taken.push(*byte).is_err() {
            self.faults = self.faults.saturating_add(1);
            return Err(Failed);
        }
        self.calls = self.calls.saturating_add(1);
        Ok(1)
    }
}

#[test]
fn a_text_is_written_whole_or_up_to_a_failure(rt: HostRuntime) -> Result<(), Fail> {
    for (fails, taken) in [(0, ""), (1, "a"), (2, "ab"), (3, "abc")] {
        let mut sink = FlakySink {
            taken: Vec::new(rt.alloc()),
            calls: 0,
            fails,
            faults: 0,
        };
        let written = write_whole(&mut sink, b"abc");
        assert_eq!(rt; written.is_ok(), fails == 3, "at {taken}");
        assert!(rt; sink.taken.as_slice() == taken.as_bytes(), "at {taken}");
    }
    Ok(())
}

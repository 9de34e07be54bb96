//! What is left of a text after a part that found no memory.

ghost use Rattle.std.specs.Prelude.{◌≡◌, take, OnOk, OnErr};

use std::alloc::AllocError;

/// Hands on the answer of a call that appended to a text, and where it is an error cuts the text back
/// to its first `kept` bytes.
pub fn keep_front(
    pushed: Result<(), AllocError>,
    kept: usize,
    text: &mut Vec<u8>,
) -> Result<(), AllocError>
    ensures same { result ≡ pushed }
    ensures ok { OnOk result (text.new.items ≡ text.old.items) }
    ensures err { OnErr result (text.new.items ≡ take kept text.old.items) }
{
    if pushed.is_err() {
        text.truncate(kept);
    }
    pushed
}

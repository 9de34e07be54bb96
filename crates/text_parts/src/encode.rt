//! Base64, written into a buffer.

ghost use Rattle.std.specs.Prelude.{◌≡◌, ◌≤◌, ◌++◌, length, take, drop, replicate, OnOk, OnErr};
ghost use Rattle.base64.specs.GeneralPurpose.{encode_of, encoded_size_of};

use base64::encoded_len;
use base64::engine::GeneralPurpose;
use std::alloc::AllocError;

/// Appends the bytes in base64. Without memory the text stays as it is.
pub fn push_base64(
    engine: &GeneralPurpose,
    bytes: &[u8],
    text: &mut Vec<u8>,
) -> Result<(), AllocError>
    ensures ok { OnOk result
        (text.new.items ≡ text.old.items ++ encode_of engine.now bytes.now) }
    ensures err { OnErr result (text.new.items ≡ text.old.items) }
{
    let end = text.len();
    add_room(engine, bytes.len(), text)?;
    let (_, room) = text.as_mut_slice().split_at_mut(end);
    fill(engine, bytes, room);
    Ok(())
}

/// Puts the base64 of the bytes from `from` on in their place. Without memory the text stays as it
/// is.
pub fn encode_tail(
    engine: &GeneralPurpose,
    from: usize,
    text: &mut Vec<u8>,
) -> Result<(), AllocError>
    requires { from ≤ length text.old.items }
    ensures ok { OnOk result (text.new.items
        ≡ take from text.old.items ++ encode_of engine.now (drop from text.old.items)) }
    ensures err { OnErr result (text.new.items ≡ text.old.items) }
{
    let end = text.len();
    push_again(engine, from, text)?;
    cut_out(from, end, text);
    Ok(())
}

/// Appends the base64 of the bytes from `from` on.
fn push_again(engine: &GeneralPurpose, from: usize, text: &mut Vec<u8>) -> Result<(), AllocError>
    requires { from ≤ length text.old.items }
    ensures ok { OnOk result (text.new.items
        ≡ text.old.items ++ encode_of engine.now (drop from text.old.items)) }
    ensures err { OnErr result (text.new.items ≡ text.old.items) }
{
    let end = text.len();
    add_room(engine, end - from, text)?;
    let (front, room) = text.as_mut_slice().split_at_mut(end);
    let (_, bytes) = front.split_at(from);
    fill(engine, bytes, room);
    Ok(())
}

/// Appends as many zeros as the base64 of `len` bytes has symbols.
fn add_room(engine: &GeneralPurpose, len: usize, text: &mut Vec<u8>) -> Result<(), AllocError>
    ensures ok { OnOk result (text.new.items
        ≡ text.old.items ++ replicate (encoded_size_of engine.now len) 0) }
    ensures err { OnErr result (text.new.items ≡ text.old.items) }
{
    let Some(size) = encoded_len(len, engine.config().encode_padding()) else {
        return Err(AllocError);
    };
    let Some(end) = text.len().checked_add(size) else {
        return Err(AllocError);
    };
    text.resize(end, 0)?;
    Ok(())
}

/// Fills the room with the bytes in base64.
fn fill(engine: &GeneralPurpose, bytes: &[u8], room: &mut [u8])
    requires { length room.old ≡ encoded_size_of engine.now (length bytes.now) }
    ensures { room.new ≡ encode_of engine.now bytes.now }
{
    let _ = engine.encode_slice(bytes, room);
}

/// Takes out the bytes from `from` up to `end`.
fn cut_out(from: usize, end: usize, text: &mut Vec<u8>)
    requires order { from ≤ end }
    requires within { end ≤ length text.old.items }
    ensures { text.new.items ≡ take from text.old.items ++ drop end text.old.items }
{
    let kept = from + (text.len() - end);
    text.copy_within(end.., from);
    text.truncate(kept);
}

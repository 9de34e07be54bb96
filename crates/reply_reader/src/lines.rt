//! Lines, read from the front.

ghost use Rattle.std.specs.Prelude.{◌≡◌, IfOk, IsTrue};
ghost use Rattle.base64.specs.GeneralPurpose.{IsBytes};
ghost use Rattle.block_record.specs.Parents.{is_parent_num as is_parent_number};
ghost use Rattle.block_record.specs.Records.{fields_of};
ghost use Rattle.hex.specs.Hex.{encode_lower};
ghost use Rattle.reply_reader.specs.Reading.{Gives, HasBytes, said, some_ref_at as some_ref_as, ref_at as ref_as, ref_member as ref_member_as, type_at as type_as, read_open as open_of, any_names_at as any_names_as, names_at as names_as, block_at as block_as, digest_value as digest_value_as, after_digest as digest_left, read_step as step_of, read_head as head_of, read_end as end_of, error_said, read_line as line_of};

use crate::errors::{end_with, read_error};
use crate::parts::{after_front, cursor_at, id_at, number_at, payload_at, step_at, strip};
use crate::quoted::quoted;
use crate::replies::{Reply, ReplyFault};
use block_record::{Block, BlockRef, Bytes, Id, TypeName};
use sha2::{Digest, Sha256};
use std::alloc::Global;

/// A block by number and id.
fn some_ref_at(alloc: Global, text: &[u8]) -> Result<(Option<BlockRef>, &[u8]), ReplyFault>
    ensures { Gives (λ x. (x.0, x.1.now)) result (some_ref_as text.now) }
{
    let (num, rest) = number_at(b"{\"num\":".as_slice(), b',', text)?;
    let (id, rest) = id_at(alloc, b"\"id\":\"".as_slice(), rest)?;
    let rest = strip(b"}".as_slice(), rest)?;
    Ok((Some(BlockRef { num, id }), rest))
}

/// A block by number and id, or `null`.
#[tactic(auto, unfolding(crate::specs::Reading::ref_at))]
fn ref_at(alloc: Global, text: &[u8]) -> Result<(Option<BlockRef>, &[u8]), ReplyFault>
    ensures { Gives (λ x. (x.0, x.1.now)) result (ref_as text.now) }
{
    match after_front(b"null".as_slice(), text) {
        Some(rest) => Ok((None, rest)),
        None => some_ref_at(alloc, text),
    }
}

/// A member whose value is one.
fn ref_member<'a>(
    alloc: Global,
    front: &[u8],
    text: &'a [u8],
) -> Result<(Option<BlockRef>, &'a [u8]), ReplyFault>
    ensures { Gives (λ x. (x.0, x.1.now)) result (ref_member_as front.now text.now) }
{
    let rest = strip(front, text)?;
    ref_at(alloc, rest)
}

/// The type of the blocks.
fn type_at(alloc: Global, text: &[u8]) -> Result<(TypeName, &[u8]), ReplyFault>
    ensures { Gives (λ x. (x.0, x.1.now)) result (type_as text.now) }
{
    let (name, rest) = quoted(alloc, text)?;
    let block_type = TypeName::new(alloc, name.as_slice())?.ok_or(ReplyFault::BadReply)?;
    Ok((block_type, rest))
}

/// Reads the first line, after its first bytes.
#[tactic(auto, unfolding(crate::specs::Reading::read_open))]
fn read_open(alloc: Global, text: &[u8]) -> Result<Reply, ReplyFault>
    ensures value { Gives said result (open_of text.now) }
    ensures bytes { IfOk result HasBytes }
{
    let (block_type, rest) = type_at(alloc, text)?;
    let (run, rest) = number_at(b",\"run\":".as_slice(), b',', rest)?;
    let (end, rest) = ref_member(alloc, b"\"end\":".as_slice(), rest)?;
    let (lib, rest) = ref_member(alloc, b",\"lib\":".as_slice(), rest)?;
    end_with(b"}".as_slice(), rest)?;
    Ok(Reply::Open {
        block_type,
        run,
        end,
        lib,
    })
}

/// The members that name a block and its parent.
#[derive(Drop)]
struct Names {
    num: u64,
    id: Id,
    parent_num: u64,
    parent_id: Id,
}

/// Whether a parent may have this number.
fn is_parent_num(parent_num: u64, num: u64) -> bool
    ensures { result ≡ is_parent_number parent_num num }
{
    parent_num < num || (num == 0 && parent_num == 0)
}

/// Reads them, whatever the parent's number.
#[tactic(auto, unfolding(crate::specs::Reading::any_names_at))]
fn any_names_at(alloc: Global, text: &[u8]) -> Result<(Names, &[u8]), ReplyFault>
    ensures { Gives (λ x. (x.0, x.1.now)) result (any_names_as text.now) }
{
    let (num, rest) = number_at(b",\"num\":".as_slice(), b',', text)?;
    let (id, rest) = id_at(alloc, b"\"id\":\"".as_slice(), rest)?;
    let (parent_num, rest) = number_at(b",\"parent_num\":".as_slice(), b',', rest)?;
    let (parent_id, rest) = id_at(alloc, b"\"parent_id\":\"".as_slice(), rest)?;
    let names = Names {
        num,
        id,
        parent_num,
        parent_id,
    };
    Ok((names, rest))
}

/// Reads them, where the parent may have its number.
#[tactic(auto, unfolding(crate::specs::Reading::names_at))]
fn names_at(alloc: Global, text: &[u8]) -> Result<(Names, &[u8]), ReplyFault>
    ensures value { Gives (λ x. (x.0, x.1.now)) result (names_as text.now) }
    ensures first { IfOk result (λ x. IsTrue (is_parent_number x.0.parent_num x.0.num)) }
{
    let (names, rest) = any_names_at(alloc, text)?;
    if is_parent_num(names.parent_num, names.num) {
        Ok((names, rest))
    } else {
        Err(ReplyFault::BadReply)
    }
}

/// The members of a block.
#[tactic(auto, unfolding(crate::specs::Reading::block_at))]
fn block_at(alloc: Global, text: &[u8]) -> Result<(Block, &[u8]), ReplyFault>
    ensures value { Gives (λ x. (fields_of x.0, x.1.now)) result (block_as text.now) }
    ensures bytes { IfOk result (λ x. IsBytes x.0.payload) }
{
    let (names, rest) = names_at(alloc, text)?;
    let (lib_num, rest) = number_at(b",\"lib_num\":".as_slice(), b',', rest)?;
    let (time, rest) = number_at(b"\"time\":".as_slice(), b',', rest)?;
    let (payload, rest) = payload_at(alloc, rest)?;
    let block = Block {
        num: names.num,
        id: names.id,
        parent_num: names.parent_num,
        parent_id: names.parent_id,
        lib_num,
        time,
        digest: Sha256::digest(payload.as_bytes()),
        payload,
    };
    Ok((block, rest))
}

/// A digest in lower-case hexadecimal digits.
fn hex_of(digest: &[u8; 32]) -> [u8; 64]
    ensures { result ≡ encode_lower digest.now }
{
    let mut text = [0; 64];
    let _ = hex::encode_to_slice(digest.as_slice(), &mut text);
    text
}

/// What follows the value of the digest, which is this one.
fn digest_value<'a>(digest: &[u8; 32], text: &'a [u8]) -> Result<&'a [u8], ReplyFault>
    ensures { Gives (λ rest. rest.now) result (digest_value_as digest.now text.now) }
{
    let rest = strip(hex_of(digest).as_slice(), text)?;
    strip(b"\"".as_slice(), rest)
}

/// What follows the digest, which is this one, where the line has it.
#[tactic(auto, unfolding(crate::specs::Reading::after_digest))]
fn after_digest<'a>(digest: &[u8; 32], text: &'a [u8]) -> Result<&'a [u8], ReplyFault>
    ensures { Gives (λ rest. rest.now) result (digest_left digest.now text.now) }
{
    match after_front(b",\"digest\":\"".as_slice(), text) {
        Some(rest) => digest_value(digest, rest),
        None => Ok(text),
    }
}

/// Reads the line of a step, after its first bytes.
#[tactic(auto, unfolding(crate::specs::Reading::read_step))]
fn read_step(alloc: Global, text: &[u8]) -> Result<Reply, ReplyFault>
    ensures value { Gives said result (step_of text.now) }
    ensures bytes { IfOk result HasBytes }
{
    let (step, rest) = step_at(text)?;
    let (block, rest) = block_at(alloc, rest)?;
    let rest = after_digest(&block.digest, rest)?;
    let (cursor, rest) = cursor_at(alloc, rest)?;
    end_with(b"}".as_slice(), rest)?;
    Ok(Reply::Step {
        step,
        block,
        cursor,
    })
}

/// Reads the line that ends a batch, after its first bytes.
#[tactic(auto, unfolding(crate::specs::Reading::read_head))]
fn read_head(alloc: Global, text: &[u8]) -> Result<Reply, ReplyFault>
    ensures value { Gives said result (head_of text.now) }
    ensures bytes { IfOk result HasBytes }
{
    let (head, rest) = ref_at(alloc, text)?;
    let (seen, rest) = number_at(b",\"seen\":".as_slice(), b'}', rest)?;
    end_with(b"".as_slice(), rest)?;
    Ok(Reply::Head { head, seen })
}

/// Reads the line that ends a session, after its first bytes.
#[tactic(auto, unfolding(crate::specs::Reading::read_end))]
fn read_end(text: &[u8]) -> Result<Reply, ReplyFault>
    ensures value { Gives said result (end_of text.now) }
    ensures bytes { IfOk result HasBytes }
{
    if text == b"done\"}".as_slice() {
        Ok(Reply::End { done: true })
    } else if text == b"closing\"}".as_slice() {
        Ok(Reply::End { done: false })
    } else {
        Err(ReplyFault::BadReply)
    }
}

/// Reads a line of an error, whose word and further members are `text`.
fn keep_error(alloc: Global, line: &[u8], text: &[u8]) -> Result<Reply, ReplyFault>
    ensures value { Gives said result (error_said line.now text.now) }
    ensures bytes { IfOk result HasBytes }
{
    read_error(alloc, text)?;
    Ok(Reply::Error {
        line: Bytes::new(alloc, line)?,
    })
}

/// Reads a line, which has no LF, by its first bytes. A payload is decoded into the memory that the
/// block keeps.
#[tactic(auto, unfolding(crate::specs::Reading::read_line))]
pub fn read_line(alloc: Global, line: &[u8]) -> Result<Reply, ReplyFault>
    ensures value { Gives said result (line_of line.now) }
    ensures bytes { IfOk result HasBytes }
{
    if let Some(rest) = after_front(b"{\"step\":\"".as_slice(), line) {
        return read_step(alloc, rest);
    }
    if let Some(rest) = after_front(b"{\"head\":".as_slice(), line) {
        return read_head(alloc, rest);
    }
    if let Some(rest) = after_front(b"{\"open\":\"".as_slice(), line) {
        return read_open(alloc, rest);
    }
    if let Some(rest) = after_front(b"{\"end\":\"".as_slice(), line) {
        return read_end(rest);
    }
    match after_front(b"{\"error\":\"".as_slice(), line) {
        Some(rest) => keep_error(alloc, line, rest),
        None => Err(ReplyFault::BadReply),
    }
}

//! The record of a block: its bytes, and the block of such bytes.

ghost use Rattle.std.specs.Prelude.{◌≡◌, ◌≤◌, ◌<◌, ◌^◌, ◌++◌, IfOk, OnOk, Ok, length, IsTrue};
ghost use Rattle.std.specs.Int.{w64};
ghost use Rattle.sha2.specs.Sha256.{sha256};
ghost use Rattle.block_record.specs.declared.blocks.Block.{Block};
ghost use Rattle.block_record.specs.declared.faults.RecordFault;
ghost use Rattle.block_record.specs.Parents.{is_parent_num};
ghost use Rattle.block_record.specs.Texts.{IsId};
ghost use Rattle.block_record.specs.Words.{Unless};
ghost use Rattle.block_record.specs.Records.{place, number_text, text_from, record_text, old_record_text, id_text, payload_text, record_fault, fields_of, IsRecordable, IsRecordText, version_at as version_of, number_at as number_of, parent_num_at as parent_num_of, id_at as id_of, payload_at as payload_of, digest_at as digest_of};
ghost use Rattle.block_record.specs.Reading.{Gives, bad_place, read, version_number, numbers_of, read_numbers, read_fields};

use crate::blocks::{Block, PAYLOAD_BYTES_MAX};
use crate::bytes::Bytes;
use crate::faults::RecordFault;
use crate::ids::Id;
use sha2::{Digest, Sha256};
use std::alloc::{AllocError, Global};

/// The two forms of record.
#[derive(Clone, Copy)]
enum Form {
    /// Record 1, without the digest of the payload.
    Old,
    /// Record 2, which ends with it.
    Digested,
}

/// The numbers of a record.
#[derive(Clone, Copy)]
struct Numbers {
    num: u64,
    parent_num: u64,
    lib_num: u64,
    time: u64,
}

/// Record 2 of a block: the version 2; number, parent's number, lib number and time; the id and the
/// parent's id, each after a byte for its length; the payload after four bytes for its length; and
/// the payload's SHA-256. All numbers have their greatest byte first.
pub fn encode(alloc: Global, block: &Block) -> Result<Vec<u8>, AllocError>
    ensures text { IfOk result (λ bytes. bytes.items ≡ record_text block.now) }
    ensures recordable { OnOk result (IsRecordable block.now) }
{
    let mut bytes = Vec::new(alloc);
    push_record(block, &mut bytes)?;
    Ok(bytes)
}

/// Appends record 2 of a block. Without memory a part of it may have been appended.
pub fn push_record(block: &Block, bytes: &mut Vec<u8>) -> Result<(), AllocError>
    ensures text { OnOk result (bytes.new.items ≡ bytes.old.items ++ record_text block.now) }
    ensures recordable { OnOk result (IsRecordable block.now) }
{
    push_fields(Form::Digested, block, bytes)?;
    bytes.extend_from_slice(&block.digest)?;
    Ok(())
}

/// Record 1 of a block: the version 1, and what record 2 has between its version and its digest.
pub fn encode_old(alloc: Global, block: &Block) -> Result<Vec<u8>, AllocError>
    ensures text { IfOk result (λ bytes. bytes.items ≡ old_record_text block.now) }
    ensures recordable { OnOk result (IsRecordable block.now) }
{
    let mut bytes = Vec::new(alloc);
    push_fields(Form::Old, block, &mut bytes)?;
    Ok(bytes)
}

/// Appends the version of a form, and the fields of a block.
fn push_fields(form: Form, block: &Block, bytes: &mut Vec<u8>) -> Result<(), AllocError>
    ensures text { OnOk result (bytes.new.items
        ≡ bytes.old.items ++ text_from (version_number form) (fields_of block.now)) }
    ensures recordable { OnOk result (IsRecordable block.now) }
{
    bytes.push(version_byte(form))?;
    push_numbers(block, bytes)?;
    push_id(&block.id, bytes)?;
    push_id(&block.parent_id, bytes)?;
    push_payload(&block.payload, bytes)?;
    Ok(())
}

/// The first byte of a record of this form.
fn version_byte(form: Form) -> u8
    ensures { result ≡ version_number form }
{
    match form {
        Form::Old => 1,
        Form::Digested => 2,
    }
}

/// Nothing but what each block has: its ids are ids, and its numbers have 64 bits.
pub fn show_recordable(block: &Block)
    ensures { IsRecordable block.now }
{
    let _num = block.num;
    let _lib_num = block.lib_num;
    let _time = block.time;
    let _id = block.id.as_bytes();
    let _parent_id = block.parent_id.as_bytes();
}

/// The block of a record of either form, with its payload's digest.
pub fn decode(alloc: Global, bytes: &[u8]) -> Result<Block, RecordFault>
    // What is decoded is a record of the block, and each block's records are decoded as that block.
    ensures text { IfOk result (λ block. IsRecordText bytes.now block) }
    ensures back { (block : Block) → IsRecordable block → IsRecordText bytes.now block
        → Unless RecordFault.Mem result (result ≡ Ok block) }

    // Other bytes are refused at the first field that is cut or bad, or at what follows the last.
    ensures fault { Unless RecordFault.Mem result (bad_place result ≡ record_fault bytes.now) }
{
    read_block(alloc, bytes)
}

/// Reads the fields of a record one after another.
#[tactic(auto, unfolding(crate::specs::Reading::read_fields))]
fn read_block(alloc: Global, bytes: &[u8]) -> Result<Block, RecordFault>
    ensures { Gives fields_of result (read_fields bytes.now) }
{
    let total = bytes.len();
    let (form, rest) = form_at(total, bytes)?;
    let (numbers, rest) = numbers_at(total, rest)?;
    let (id, rest) = id_at(alloc, total, rest)?;
    let (parent_id, rest) = id_at(alloc, total, rest)?;
    let (payload, rest) = payload_at(total, rest)?;
    let digest = Sha256::digest(payload);
    let rest = after_digest(total, form, &digest, rest)?;
    if !rest.is_empty() {
        return Err(bad(total, rest));
    }
    Ok(Block {
        num: numbers.num,
        id,
        parent_num: numbers.parent_num,
        parent_id,
        lib_num: numbers.lib_num,
        time: numbers.time,
        digest,
        payload: Bytes::new(alloc, payload)?,
    })
}

/// The form of a record by its version, and what follows the version.
fn form_at(total: usize, bytes: &[u8]) -> Result<(Form, &[u8]), RecordFault>
    ensures { Gives (λ x. (version_number x.0, x.1.now)) result (read total version_of bytes.now) }
{
    match bytes {
        [1, rest @ ..] => Ok((Form::Old, rest)),
        [2, rest @ ..] => Ok((Form::Digested, rest)),
        _ => Err(bad(total, bytes)),
    }
}

/// The numbers at the front of the last bytes of so many, and what follows them.
#[tactic(auto, unfolding(crate::specs::Reading::read_numbers))]
fn numbers_at(total: usize, bytes: &[u8]) -> Result<(Numbers, &[u8]), RecordFault>
    ensures value { Gives (λ x. (numbers_of x.0, x.1.now)) result (read_numbers total bytes.now) }
    ensures first { IfOk result (λ x. IsTrue (is_parent_num x.0.parent_num x.0.num)) }
{
    let (num, rest) = number_at(total, bytes)?;
    let (parent_num, rest) = parent_num_at(total, num, rest)?;
    let (lib_num, rest) = number_at(total, rest)?;
    let (time, rest) = number_at(total, rest)?;
    let numbers = Numbers {
        num,
        parent_num,
        lib_num,
        time,
    };
    Ok((numbers, rest))
}

/// The number at the front of the last bytes of so many, and what follows it.
fn number_at(total: usize, bytes: &[u8]) -> Result<(u64, &[u8]), RecordFault>
    ensures { Gives (λ x. (x.0, x.1.now)) result (read total (number_of w64) bytes.now) }
{
    if bytes.len() < 8 {
        return Err(bad(total, bytes));
    }
    let (front, rest) = bytes.split_at(8);
    let number = u64::from_be_bytes([
        front[0], front[1], front[2], front[3], front[4], front[5], front[6], front[7],
    ]);
    Ok((number, rest))
}

/// The number of the parent of a block with this number.
fn parent_num_at(total: usize, num: u64, bytes: &[u8]) -> Result<(u64, &[u8]), RecordFault>
    ensures value { Gives (λ x. (x.0, x.1.now)) result
        (read total (parent_num_of num) bytes.now) }
    ensures first { IfOk result (λ x. IsTrue (is_parent_num x.0 num)) }
{
    let (parent_num, rest) = number_at(total, bytes)?;
    if parent_num < num || (num == 0 && parent_num == 0) {
        Ok((parent_num, rest))
    } else {
        Err(bad(total, bytes))
    }
}

/// The id after its length.
fn id_at(alloc: Global, total: usize, bytes: &[u8]) -> Result<(Id, &[u8]), RecordFault>
    ensures { Gives (λ x. (x.0, x.1.now)) result (read total id_of bytes.now) }
{
    let fault = bad(total, bytes);
    let [length, rest @ ..] = bytes else {
        return Err(fault);
    };
    let length = usize::from(*length);
    if rest.len() < length {
        return Err(fault);
    }
    let (text, rest) = rest.split_at(length);
    let id = Id::new(alloc, text)?.ok_or(fault)?;
    Ok((id, rest))
}

/// The payload after its length.
fn payload_at(total: usize, bytes: &[u8]) -> Result<(&[u8], &[u8]), RecordFault>
    ensures value { Gives (λ x. (x.0.now, x.1.now)) result (read total payload_of bytes.now) }
    ensures small { IfOk result (λ x. length x.0.now ≤ 50_000_000) }
{
    if bytes.len() < 4 {
        return Err(bad(total, bytes));
    }
    let (front, rest) = bytes.split_at(4);
    let length = u32::from_be_bytes([front[0], front[1], front[2], front[3]]) as usize;
    if length > PAYLOAD_BYTES_MAX || rest.len() < length {
        return Err(bad(total, bytes));
    }
    Ok(rest.split_at(length))
}

/// What follows the digest of a record, which is this one: record 1 has none.
fn after_digest<'a>(
    total: usize,
    form: Form,
    digest: &[u8; 32],
    left: &'a [u8],
) -> Result<&'a [u8], RecordFault>
    ensures { Gives (λ rest. (digest.now, rest.now)) result
        (read total (digest_of (version_number form) digest.now) left.now) }
{
    if let Form::Old = form {
        return Ok(left);
    }
    let fault = bad(total, left);
    if left.len() < 32 {
        return Err(fault);
    }
    let (front, rest) = left.split_at(32);
    if front != digest.as_slice() {
        return Err(fault);
    }
    Ok(rest)
}

/// The fault of the field that these last bytes of so many begin with.
fn bad(total: usize, rest: &[u8]) -> RecordFault
    ensures { result ≡ RecordFault.BadRecord (place total rest.now) }
{
    RecordFault::BadRecord {
        at: total.saturating_sub(rest.len()),
    }
}

/// Appends the numbers of a block.
fn push_numbers(block: &Block, bytes: &mut Vec<u8>) -> Result<(), AllocError>
    ensures text { OnOk result (bytes.new.items ≡ bytes.old.items ++ number_text block.now.num
        ++ number_text block.now.parent_num ++ number_text block.now.lib_num
        ++ number_text block.now.time) }
    ensures num { OnOk result (block.now.num < 2 ^ 64) }
    ensures lib_num { OnOk result (block.now.lib_num < 2 ^ 64) }
    ensures time { OnOk result (block.now.time < 2 ^ 64) }
{
    push_number(block.num, bytes)?;
    push_number(block.parent_num, bytes)?;
    push_number(block.lib_num, bytes)?;
    push_number(block.time, bytes)?;
    Ok(())
}

/// Appends a number.
fn push_number(number: u64, bytes: &mut Vec<u8>) -> Result<(), AllocError>
    ensures text { OnOk result (bytes.new.items ≡ bytes.old.items ++ number_text number) }
    ensures wide { number < 2 ^ 64 }
{
    bytes.extend_from_slice(&number.to_be_bytes())?;
    Ok(())
}

/// Appends an id after its length.
fn push_id(id: &Id, bytes: &mut Vec<u8>) -> Result<(), AllocError>
    ensures text { OnOk result (bytes.new.items ≡ bytes.old.items ++ id_text id.now) }
    ensures id { OnOk result (IsId id.now) }
{
    let text = id.as_bytes();
    bytes.push(text.len() as u8)?;
    bytes.extend_from_slice(text)?;
    Ok(())
}

/// Appends a payload after its length.
fn push_payload(payload: &Bytes, bytes: &mut Vec<u8>) -> Result<(), AllocError>
    requires { length payload.now ≤ 50_000_000 }
    ensures { OnOk result (bytes.new.items ≡ bytes.old.items ++ payload_text payload.now) }
{
    let payload = payload.as_bytes();
    bytes.extend_from_slice(&(payload.len() as u32).to_be_bytes())?;
    bytes.extend_from_slice(payload)?;
    Ok(())
}

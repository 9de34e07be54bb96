//! The header of a container.

ghost use Rattle.std.specs.Prelude.{◌≡◌, ◌≤◌, ◌<◌, ◌^◌, IfOk, IfSome, OnOk, length, codes};
ghost use Rattle.std.specs.List.{position, zip};
ghost use Rattle.block_record.specs.Texts.{IsTypeName};
ghost use Rattle.dbin_file.specs.Header.{header_text, is_other, is_hidden, mark_fault as fault_of_mark, version_fault as fault_of_version, length_fault as fault_of_length, type_fault as fault_of_type, header_fault as fault_of_header, header_size as size_of_header, type_length as length_of_type};

use crate::faults::DbinFault;
use block_record::TypeName;
use std::alloc::{AllocError, Global};

/// The bytes that a container begins with.
const MARK: [u8; 4] = *b"dbin";

/// The byte after the mark.
const CONTAINER_VERSION: u8 = 1;

/// The number of bytes before the type.
pub const TYPE_AT: usize = 7;

/// The header of a container whose messages have this type.
pub fn header(alloc: Global, block_type: &TypeName) -> Result<Vec<u8>, AllocError>
    ensures text { IfOk result (λ bytes. bytes.items ≡ header_text block_type.now) }
    ensures named { OnOk result (IsTypeName block_type.now) }
{
    let text = block_type.as_bytes();
    let mut bytes = Vec::new(alloc);
    bytes.extend_from_slice(b"dbin")?;
    bytes.push(CONTAINER_VERSION)?;
    bytes.extend_from_slice(&(text.len() as u16).to_be_bytes())?;
    bytes.extend_from_slice(text)?;
    Ok(bytes)
}

/// The first fault of the header that these bytes begin with, which may be cut.
#[tactic(auto, unfolding(crate::specs::Header::header_fault))]
pub fn header_fault(bytes: &[u8]) -> Option<DbinFault>
    ensures { result ≡ fault_of_header bytes.now }
{
    if let Some(fault) = mark_fault(bytes) {
        return Some(fault);
    }
    if let Some(fault) = version_fault(bytes) {
        return Some(fault);
    }
    if let Some(fault) = length_fault(bytes) {
        return Some(fault);
    }
    type_fault(bytes)
}

/// The number of the header's bytes, once they are all there.
#[tactic(auto, unfolding(crate::specs::Header::header_size))]
pub fn header_size(bytes: &[u8]) -> Option<usize>
    ensures { result ≡ size_of_header bytes.now }
{
    if bytes.len() < TYPE_AT {
        return None;
    }
    let size = TYPE_AT + type_length(bytes);
    if bytes.len() < size { None } else { Some(size) }
}

/// The length of the type, which is there.
fn type_length(bytes: &[u8]) -> usize
    requires { 7 ≤ length bytes.now }
    ensures value { result ≡ length_of_type bytes.now }
    ensures short { result < 2 ^ 16 }
{
    usize::from(u16::from_be_bytes([bytes[5], bytes[6]]))
}

fn mark_fault(bytes: &[u8]) -> Option<DbinFault>
    ensures { result ≡ fault_of_mark bytes.now }
{
    match first_other(bytes) {
        Some(at) => Some(DbinFault::NotDbin { at: at as u64 }),
        None => None,
    }
}

/// The place of the first byte that is other than in the mark.
fn first_other(bytes: &[u8]) -> Option<usize>
    ensures { result ≡ position is_other (zip bytes.now (codes "dbin")) }
{
    bytes
        .iter()
        .zip(&MARK)
        .position(|(byte, mark)| *byte != *mark)
}

fn version_fault(bytes: &[u8]) -> Option<DbinFault>
    ensures { result ≡ fault_of_version bytes.now }
{
    match bytes.get(4) {
        Some(&byte) if byte != CONTAINER_VERSION => Some(DbinFault::BadVersion { byte }),
        _ => None,
    }
}

fn length_fault(bytes: &[u8]) -> Option<DbinFault>
    ensures { result ≡ fault_of_length bytes.now }
{
    if bytes.len() < TYPE_AT || (1..=255).contains(&type_length(bytes)) {
        None
    } else {
        Some(DbinFault::NotDbin { at: 5 })
    }
}

fn type_fault(bytes: &[u8]) -> Option<DbinFault>
    ensures { result ≡ fault_of_type bytes.now }
{
    if bytes.len() < TYPE_AT {
        return None;
    }
    let (_, rest) = bytes.split_at(TYPE_AT);
    let (block_type, _) = rest.split_at(type_length(bytes).min(rest.len()));
    match first_hidden(block_type) {
        Some(at) => Some(DbinFault::NotDbin {
            at: TYPE_AT as u64 + at as u64,
        }),
        None => None,
    }
}

/// The place of the first byte that is not from 0x21 to 0x7e.
fn first_hidden(bytes: &[u8]) -> Option<usize>
    ensures place { result ≡ position is_hidden bytes.now }
    ensures within { IfSome result (λ at. at < length bytes.now) }
{
    bytes.iter().position(|byte| *byte <= 0x20 || 0x7f <= *byte)
}

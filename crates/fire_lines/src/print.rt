//! The lines of a run, printed.

ghost use Rattle.std.specs.Prelude.{◌≡◌, ◌++◌, ◌∷◌, ◌<◌, ◌^◌, [], IfOk, OnOk};
ghost use Rattle.std.specs.Fmt.{decimal};
ghost use Rattle.base64.specs.GeneralPurpose.{encode_of, IsBytes};
ghost use Rattle.base64.specs.Engines.{standard};
ghost use Rattle.block_record.specs.Texts.{IsId, IsTypeName};
ghost use Rattle.fire_lines.specs.Printed.{version_text as text_of_version, init_line, block_line, IsPrintable};

use base64::engine::general_purpose::STANDARD;
use block_record::{Block, Id, Kind, Version};
use itoa::Buffer;
use std::alloc::{AllocError, Global};

/// The opening line of a run of this kind, with its LF.
pub fn print_init(alloc: Global, kind: &Kind) -> Result<Vec<u8>, AllocError>
    ensures line { IfOk result (λ line. line.items ≡ init_line kind.now) }
    ensures named { OnOk result (IsTypeName kind.now.block_type) }
{
    let mut line = Vec::new(alloc);
    line.extend_from_slice(b"FIRE INIT ")?;
    line.extend_from_slice(version_text(kind.version))?;
    line.push(b' ')?;
    line.extend_from_slice(kind.block_type.as_bytes())?;
    line.push(b'\n')?;
    Ok(line)
}

/// The line of a block, with its LF.
pub fn print_block(alloc: Global, block: &Block) -> Result<Vec<u8>, AllocError>
    ensures line { IfOk result (λ line. line.items ≡ block_line block.now) }
    ensures printable { OnOk result (IsPrintable block.now) }
{
    let mut line = Vec::new(alloc);
    line.extend_from_slice(b"FIRE BLOCK ")?;
    push_ref(block.num, &block.id, &mut line)?;
    push_ref(block.parent_num, &block.parent_id, &mut line)?;
    push_number(block.lib_num, &mut line)?;
    push_number(block.time, &mut line)?;
    push_payload(alloc, block.payload.as_bytes(), &mut line)?;
    Ok(line)
}

/// The word of a version.
fn version_text(version: Version) -> &'static [u8]
    ensures { result.now ≡ text_of_version version }
{
    match version {
        Version::V1 => b"1.0",
        Version::V3 => b"3.0",
    }
}

/// Appends a number and an id, and a space after each.
fn push_ref(num: u64, id: &Id, line: &mut Vec<u8>) -> Result<(), AllocError>
    ensures text { OnOk result
        (line.new.items ≡ line.old.items ++ decimal num ++ 32 ∷ id.now ++ 32 ∷ []) }
    ensures num { num < 2 ^ 64 }
    ensures id { OnOk result (IsId id.now) }
{
    push_number(num, line)?;
    line.extend_from_slice(id.as_bytes())?;
    line.push(b' ')?;
    Ok(())
}

/// Appends a number and a space.
fn push_number(number: u64, line: &mut Vec<u8>) -> Result<(), AllocError>
    ensures text { OnOk result (line.new.items ≡ line.old.items ++ decimal number ++ 32 ∷ []) }
    ensures small { number < 2 ^ 64 }
{
    let mut digits = Buffer::new();
    line.extend_from_slice(digits.format(number).as_bytes())?;
    line.push(b' ')?;
    Ok(())
}

/// Appends a payload in base64 and the LF.
fn push_payload(alloc: Global, payload: &[u8], line: &mut Vec<u8>) -> Result<(), AllocError>
    ensures text { OnOk result
        (line.new.items ≡ line.old.items ++ encode_of standard payload.now ++ 10 ∷ []) }
    ensures bytes { OnOk result (IsBytes payload.now) }
{
    let text = STANDARD.encode(alloc, payload)?;
    line.extend_from_slice(text.as_bytes())?;
    line.push(b'\n')?;
    Ok(())
}

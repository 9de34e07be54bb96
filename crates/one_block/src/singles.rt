//! A file that holds one block.

ghost use Rattle.std.specs.Prelude.{◌≡◌, IfOk, IsTrue, ◌↔◌};
ghost use Rattle.one_block.specs.Forms.{own_name as own_name_of};
ghost use Rattle.one_block.specs.Singles.{BlockAnswers, FormedAnswers};
ghost use Rattle.one_block.specs.SingleSteps.{OnlyAnswers};

use crate::containers::{FileContents, end_place, goes_on, read_contents};
use crate::file_faults::FileFault;
use crate::forms::{Form, own_name};
use crate::heads::{decode_at, head_type};
use block_record::{Block, Bytes, Slip, TypeName, into_slip, slip_of};
use outer_world::FileName;
use std::alloc::{AllocError, Global};

/// What a file of one block holds.
#[derive(Drop)]
pub struct SingleRead {
    /// The type of the block.
    pub block_type: TypeName,
    /// The block's slip.
    pub slip: Slip,
}

/// The type and the slip of the one block in a file, by its whole name, which is of this form, and its
/// text, or where it is bad. The type must be that of the files before it.
pub fn read_single(
    alloc: Global,
    form: &Form,
    name: &FileName,
    text: &[u8],
    kept: &Option<TypeName>,
) -> Result<SingleRead, FileFault>
    ensures { FormedAnswers form.now name.now text.now kept.now result }
{
    let (block_type, block) = read_block(alloc, form, name, text, kept)?;
    Ok(SingleRead {
        block_type,
        slip: into_slip(block),
    })
}

/// The same with the block itself.
pub fn read_block(
    alloc: Global,
    form: &Form,
    name: &FileName,
    text: &[u8],
    kept: &Option<TypeName>,
) -> Result<(TypeName, Block), FileFault>
    ensures { BlockAnswers form.now name.now text.now kept.now result }
{
    let file = read_contents(alloc, text)?;
    let end = end_place(file.fault, text.len());
    let goes_on = goes_on(&file);
    let FileContents {
        block_type,
        messages,
        ..
    } = file;
    let block_type = head_type(block_type, kept, end)?;
    let place = 11 + block_type.as_bytes().len() as u64;
    match messages.first() {
        Some(first) => {
            let block = only_block(alloc, form, name, first, place, goes_on)?;
            Ok((block_type, block))
        }
        None => Err(FileFault::Bad { at: end }),
    }
}

/// The block whose record stands at this place, where the name is the block's own and nothing
/// follows.
fn only_block(
    alloc: Global,
    form: &Form,
    name: &FileName,
    bytes: &Bytes,
    place: u64,
    goes_on: bool,
) -> Result<Block, FileFault>
    ensures { OnlyAnswers form.now name.now bytes.now place goes_on result }
{
    let block = decode_at(alloc, bytes.as_bytes(), place)?;
    let slip = slip_of(alloc, &block)?;
    if !fits(alloc, form, name, &slip)? {
        return Err(FileFault::Bad { at: 0 });
    }
    if goes_on {
        return Err(FileFault::Bad {
            at: place.saturating_add(bytes.as_bytes().len() as u64),
        });
    }
    Ok(block)
}

/// Whether the name is the block's own in this form.
fn fits(alloc: Global, form: &Form, name: &FileName, slip: &Slip) -> Result<bool, AllocError>
    ensures { IfOk result
        (λ own. IsTrue own ↔ (name.now ≡ own_name_of form.now slip.now)) }
{
    let own = own_name(alloc, form, slip)?;
    Ok(own == *name)
}

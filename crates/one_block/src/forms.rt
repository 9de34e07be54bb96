//! The forms of the names of files that hold one block.

ghost use Rattle.std.specs.Prelude.{◌≡◌, ◌==◌, ◌&&◌, ◌<◌, IfOk, IfSome, length};
ghost use Rattle.std.specs.List.{position};
ghost use Rattle.std.specs.Option.{is_some};
ghost use Rattle.one_block.specs.Numerals.{filled_number};
ghost use Rattle.one_block.specs.Forms.{form_of as form_so, own_name as own_name_of, by_reader as by_reader_form, by_block as by_block_form, by_block_at as by_block_ended, is_dash_and_id};

use crate::files::{bare_name, forked_name, whole_name};
use crate::names::name_of;
use crate::parse::parse_name;
use crate::read::read_filled;
use block_record::{ReaderName, Slip, is_id};
use outer_world::FileName;
use std::alloc::{AllocError, Global};

/// A folder whose files hold one block each.
#[derive(Clone, Copy, PartialEq, Eq, Debug)]
pub enum Folder {
    /// `one/`: the blocks as a reader brought them.
    One,
    /// `forked/`: blocks off the final path.
    Forked,
}

/// The form of a name in such a folder.
#[derive(Drop)]
pub enum Form {
    /// The one-block name that this reader writes.
    ByReader(ReaderName),
    /// Number and id.
    ByBlock,
}

/// The form of a whole name, or none where it is a name of another form.
pub fn form_of(alloc: Global, folder: Folder, name: &FileName) -> Result<Option<Form>, AllocError>
    ensures { IfOk result (λ found. found ≡ form_so folder name.now) }
{
    let Some(bare) = bare_name(alloc, name)? else {
        return Ok(None);
    };
    match folder {
        Folder::One => by_reader(alloc, &bare),
        Folder::Forked => Ok(by_block(bare.as_bytes())),
    }
}

/// The form of a one-block name without folder and ending.
fn by_reader(alloc: Global, bare: &FileName) -> Result<Option<Form>, AllocError>
    ensures { IfOk result (λ found. found ≡ by_reader_form bare.now) }
{
    match parse_name(alloc, bare)? {
        Some(parts) => Ok(Some(Form::ByReader(parts.reader))),
        None => Ok(None),
    }
}

/// The form of a name by a block's number and id, without folder and ending.
fn by_block(bare: &[u8]) -> Option<Form>
    ensures { result ≡ by_block_form bare.now }
{
    match first_dash(bare) {
        Some(end) => by_block_at(bare, end),
        None => None,
    }
}

/// Where the first dash stands.
fn first_dash(text: &[u8]) -> Option<usize>
    ensures place { result ≡ position (λ byte. byte == 45) text.now }
    ensures within { IfSome result (λ place. place < length text.now) }
{
    text.iter().position(|byte| *byte == b'-')
}

/// The same of a name whose number ends at this place.
fn by_block_at(bare: &[u8], end: usize) -> Option<Form>
    requires { end < length bare.now }
    ensures { result ≡ by_block_ended bare.now end }
{
    let (num, rest) = bare.split_at(end);
    if is_block_name(num, rest) {
        Some(Form::ByBlock)
    } else {
        None
    }
}

/// Whether the texts are a number of at least ten digits, and a dash and an id.
fn is_block_name(num: &[u8], rest: &[u8]) -> bool
    ensures { result ≡ (is_some (filled_number 10 num.now) && is_dash_and_id rest.now) }
{
    read_filled(10, num).is_some() && is_dash_id(rest)
}

/// Whether the text is a dash and an id.
fn is_dash_id(text: &[u8]) -> bool
    ensures { result ≡ is_dash_and_id text.now }
{
    match text {
        [_, id @ ..] => is_id(id),
        [] => false,
    }
}

/// The whole name of the file of a block, in this form.
pub fn own_name(alloc: Global, form: &Form, slip: &Slip) -> Result<FileName, AllocError>
    ensures { IfOk result (λ name. name ≡ own_name_of form.now slip.now) }
{
    match form {
        Form::ByReader(reader) => {
            let name = name_of(alloc, slip, reader)?;
            whole_name(alloc, "one", &name)
        }
        Form::ByBlock => forked_name(alloc, slip.num, &slip.id),
    }
}

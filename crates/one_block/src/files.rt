//! Whole names of files, as a shelf takes them: folder, `/`, name and `.dbin`.

ghost use Rattle.std.specs.Prelude.{◌≡◌, ◌%◌, IfOk};
ghost use Rattle.std.specs.Option.{option_copied};
ghost use Rattle.one_block.specs.Files.{whole_text, after_slash as slash_rest, without_ending as unended, without_front as unfronted, bare_text, IsSize, folder_of_size, merged_text, forked_text, base_in, merged_base_of};

use crate::print::push_padded;
use crate::read::read_filled;
use block_record::Id;
use outer_world::FileName;
use std::alloc::{AllocError, Global};

/// The whole name of a file: the folder, `/`, the name and `.dbin`.
pub fn whole_name(alloc: Global, folder: &str, name: &FileName) -> Result<FileName, AllocError>
    ensures { IfOk result (λ file. file ≡ whole_text folder.now name.now) }
{
    let mut text = Vec::from_slice(alloc, folder.as_bytes())?;
    text.push(b'/')?;
    text.extend_from_slice(name.as_bytes())?;
    text.extend_from_slice(b".dbin")?;
    Ok(FileName::from_vec(text))
}

/// The name that stands between the first `/` of a whole name and its ending `.dbin`, or none where
/// one of them is missing.
pub fn bare_name(alloc: Global, file: &FileName) -> Result<Option<FileName>, AllocError>
    ensures { IfOk result (λ found. found ≡ bare_text file.now) }
{
    match bare(file.as_bytes()) {
        Some(text) => {
            let name = FileName::new(alloc, text)?;
            Ok(Some(name))
        }
        None => Ok(None),
    }
}

/// The folder of the files of merged blocks of a size: `merged` for 100, `merged1000` for 1,000. The
/// size is how many numbers each file covers.
pub fn merged_folder(size: u64) -> &'static str
    requires { IsSize size }
    ensures { result.now ≡ folder_of_size size }
{
    if size == 1_000 {
        "merged1000"
    } else {
        "merged"
    }
}

/// The whole name of the file of merged blocks from this base on, in the folder of this size.
pub fn merged_name(alloc: Global, size: u64, base: u64) -> Result<FileName, AllocError>
    requires size { IsSize size }
    requires base { base % size ≡ 0 }
    ensures { IfOk result (λ file. file ≡ merged_text size base) }
{
    let mut text = Vec::from_slice(alloc, merged_folder(size).as_bytes())?;
    text.push(b'/')?;
    push_padded(10, base, &mut text)?;
    text.extend_from_slice(b".dbin")?;
    Ok(FileName::from_vec(text))
}

/// The whole name of the file of a block off the final path.
pub fn forked_name(alloc: Global, num: u64, id: &Id) -> Result<FileName, AllocError>
    ensures { IfOk result (λ file. file ≡ forked_text num id.now) }
{
    let mut text = Vec::from_slice(alloc, b"forked/")?;
    push_padded(10, num, &mut text)?;
    text.push(b'-')?;
    text.extend_from_slice(id.as_bytes())?;
    text.extend_from_slice(b".dbin")?;
    Ok(FileName::from_vec(text))
}

/// The base in the whole name of a file of merged blocks of either size, or none where the text is no
/// such name.
pub fn merged_base(file: &FileName) -> Option<u64>
    ensures { result ≡ merged_base_of file.now }
{
    merged_base_in(100, file).or(merged_base_in(1_000, file))
}

/// The same of a file in the folder of this size.
pub fn merged_base_in(size: u64, file: &FileName) -> Option<u64>
    requires { IsSize size }
    ensures { result ≡ base_in size file.now }
{
    let rest = without_front(file.as_bytes(), merged_folder(size).as_bytes())?;
    let name = without_front(rest, b"/")?;
    let base = read_filled(10, without_ending(name, b".dbin")?)?;
    if base % size == 0 { Some(base) } else { None }
}

/// What stands between the first slash and the ending.
fn bare(file: &[u8]) -> Option<&[u8]>
    ensures { option_copied result ≡ bare_text file.now }
{
    without_ending(after_slash(file)?, b".dbin")
}

/// What follows the first slash.
fn after_slash(file: &[u8]) -> Option<&[u8]>
    ensures { option_copied result ≡ slash_rest file.now }
{
    let mut rest = file;
    while let [first, more @ ..] = rest {
        if *first == b'/' {
            return Some(more);
        }
        rest = more;
    }
    None
}

/// The text without its ending, where it has this one.
fn without_ending<'a>(text: &'a [u8], ending: &[u8]) -> Option<&'a [u8]>
    ensures { option_copied result ≡ unended ending.now text.now }
{
    let (front, end) = text.split_at(text.len().saturating_sub(ending.len()));
    if end == ending { Some(front) } else { None }
}

/// The text without its front, where it begins so.
fn without_front<'a>(text: &'a [u8], front: &[u8]) -> Option<&'a [u8]>
    ensures { option_copied result ≡ unfronted front.now text.now }
{
    let (start, rest) = text.split_at_checked(front.len())?;
    if start == front { Some(rest) } else { None }
}

//! The layout of a shelf: how many numbers each of its files of merged blocks covers.

ghost use Rattle.std.specs.Prelude.{◌≡◌, ◌≤◌, IfOk, length};
ghost use Rattle.outer_world.specs.Shelves.{Holds};
ghost use Rattle.one_block.specs.Files.{IsSize};
ghost use Rattle.one_block.specs.Layout.{LayoutAnswers, layout_file, layout_text, shared as shared_front, size_told};

use crate::faults::StoreFault;
use outer_world::{FileName, Shelf, read_file};
use std::alloc::{AllocError, Global};

/// The whole name of the file that tells a shelf's layout.
pub fn layout_name(alloc: Global) -> Result<FileName, AllocError>
    ensures { IfOk result (λ name. name ≡ layout_file) }
{
    let name = FileName::new(alloc, b"layout/bundle")?;
    Ok(name)
}

/// The text of that file for a size: the number and LF.
pub fn size_text(size: u64) -> &'static [u8]
    requires { IsSize size }
    ensures { result.now ≡ layout_text size }
{
    if size == 1_000 { b"1000\n" } else { b"100\n" }
}

/// How many numbers each file of merged blocks of the shelf covers: 100 or 1,000. It is 100 where no
/// file tells it.
pub fn read_layout<S: Shelf>(alloc: Global, shelf: &mut S) -> Result<u64, StoreFault>
    ensures answers { LayoutAnswers (S.files shelf.old)
        (S.shelf_faults shelf.old) (S.shelf_faults shelf.new) result }
    ensures size { IfOk result IsSize }
    ensures files { S.files shelf.new ≡ S.files shelf.old }
    ensures staged { S.staged shelf.new ≡ S.staged shelf.old }
    ensures later { S.shelf_faults shelf.old ≤ S.shelf_faults shelf.new }
{
    let name = layout_name(alloc)?;
    match read_file(alloc, shelf, &name)? {
        None => Ok(100),
        Some(text) => match size_of(text.as_slice()) {
            Ok(size) => Ok(size),
            Err(at) => Err(StoreFault::ShelfBad { name, at }),
        },
    }
}

/// The size that the text of a layout tells, or the place where it is bad.
fn size_of(text: &[u8]) -> Result<u64, u64>
    ensures told { result ≡ size_told text.now }
    ensures size { IfOk result IsSize }
{
    if text == size_text(100) {
        Ok(100)
    } else if text == size_text(1_000) {
        Ok(1_000)
    } else {
        let place = shared(text, size_text(100)).max(shared(text, size_text(1_000)));
        Err(place as u64)
    }
}

/// How many bytes two texts have in common at their front.
fn shared(text: &[u8], other: &[u8]) -> usize
    ensures count { result ≡ shared_front text.now other.now }
    ensures bound { result ≤ length text.now }
{
    let [a, text @ ..] = text else {
        return 0;
    };
    match other {
        [b, other @ ..] if a == b => shared(text, other) + 1,
        _ => 0,
    }
}

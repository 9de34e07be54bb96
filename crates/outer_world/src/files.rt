//! Whole files of a shelf, read and written.

ghost use Rattle.std.specs.Prelude.{◌≡◌, Some, IfOk, IfErr, OnOk, OnErr};
ghost use Rattle.std.specs.Option.{option_map};
ghost use Rattle.outer_world.specs.Shelves.{HasShelfCause, HasSize, Holds, KeepsOthers, StagesFront, WriteRefused, emptied, told_with};

use crate::names::FileName;
use crate::shelves::{Shelf, ShelfFail};
use std::alloc::Global;

/// The bytes of a file, or none where it is not there.
pub fn read_file<S: Shelf>(
    alloc: Global,
    shelf: &mut S,
    name: &FileName,
) -> Result<Option<Vec<u8>>, ShelfFail>
    ensures found { IfOk result (λ found. Holds (S.files shelf.old) name.now (option_map (λ text. text.items) found)) }
    ensures files { S.files shelf.new ≡ S.files shelf.old }
    ensures staged { S.staged shelf.new ≡ S.staged shelf.old }
    ensures cause { HasShelfCause (S.shelf_faults shelf.old) (S.shelf_faults shelf.new) result }
{
    match shelf.size(name)? {
        None => Ok(None),
        Some(size) => {
            let text = read_text(alloc, shelf, name, size)?;
            Ok(Some(text))
        }
    }
}

/// The bytes of a file of this length.
fn read_text<S: Shelf>(
    alloc: Global,
    shelf: &mut S,
    name: &FileName,
    size: u64,
) -> Result<Vec<u8>, ShelfFail>
    requires { HasSize (S.files shelf.old) name.now (Some size) }
    ensures found { IfOk result (λ text. Holds (S.files shelf.old) name.now (Some text.items)) }
    ensures files { S.files shelf.new ≡ S.files shelf.old }
    ensures staged { S.staged shelf.new ≡ S.staged shelf.old }
    ensures cause { HasShelfCause (S.shelf_faults shelf.old) (S.shelf_faults shelf.new) result }
{
    let mut text = Vec::new(alloc);
    let mut buf = [0; 65_536];
    while (text.len() as u64) < size {
        let count = shelf.read_at(name, text.len() as u64, &mut buf)?;
        if count == 0 {
            break;
        }
        text.extend_from_slice(&buf[..count])?;
    }
    Ok(text)
}

/// Writes a file at once, in place of the one that was there. The text that was staged before is
/// given up, and none is staged after it. Where it failed the file is the old one or the new one, and
/// a front of the text may be staged.
pub fn write_file<S: Shelf>(shelf: &mut S, name: &FileName, text: &[u8]) -> Result<(), ShelfFail>
    ensures put { OnOk result (S.files shelf.new ≡ told_with name.now text.now (S.files shelf.old)) }
    ensures refused { IfErr result (λ fail. WriteRefused fail name.now text.now (S.files shelf.old) (S.files shelf.new)) }
    ensures emptied { OnOk result (S.staged shelf.new ≡ emptied (S.staged shelf.old)) }
    ensures front { OnErr result (StagesFront (emptied (S.staged shelf.old)) (S.staged shelf.new) text.now) }
    ensures others { KeepsOthers name.now (S.files shelf.old) (S.files shelf.new) }
    ensures cause { HasShelfCause (S.shelf_faults shelf.old) (S.shelf_faults shelf.new) result }
{
    shelf.unstage();
    shelf.stage(text)?;
    shelf.commit(name)?;
    Ok(())
}

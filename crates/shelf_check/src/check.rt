//! The whole shelf.

ghost use Rattle.std.specs.Prelude.{◌≡◌, ◌≤◌, IfErr};
ghost use Rattle.shelf_check.specs.declared.check.Report.{Report as Numbers};
ghost use Rattle.shelf_check.specs.Shelf.{CheckAnswers, IsGoodShelf, IsKnownRefusal, IsReported};

use crate::faults::LoadFault;
use crate::folders::check_folder;
use crate::merged::check_merged;
use one_block::{Folder, read_layout};
use outer_world::Shelf;
use std::alloc::Global;

/// How many files and blocks a shelf has.
#[derive(Clone, Copy, PartialEq, Eq, Debug)]
pub struct Report {
    /// The files of merged blocks.
    pub bundles: u64,
    /// The blocks in them, or the greatest number of the type where there are more.
    pub blocks: u64,
    /// The files of `one/`.
    pub one: u64,
    /// The files of `forked/`.
    pub forked: u64,
}

/// Reads the layout, then each file of the folder of merged blocks of the size that it tells, by its
/// base as a number, then of `one/`, then of `forked/`, and compares it with the form of its folder. The first fault in this order is answered. It writes
/// nothing.
pub fn check_shelf<S: Shelf>(alloc: Global, shelf: &mut S) -> Result<Report, LoadFault>
    ensures answer { CheckAnswers (S.files shelf.old)
        (S.shelf_faults shelf.old) (S.shelf_faults shelf.new) result }
    ensures good { (numbers : Numbers) → IsGoodShelf (S.files shelf.old) numbers →
        IsReported numbers (S.shelf_faults shelf.old) (S.shelf_faults shelf.new) result }
    ensures named { IfErr result (IsKnownRefusal (S.files shelf.old)) }
    ensures files { S.files shelf.new ≡ S.files shelf.old }
    ensures staged { S.staged shelf.new ≡ S.staged shelf.old }
    ensures later { S.shelf_faults shelf.old ≤ S.shelf_faults shelf.new }
{
    let size = read_layout(alloc, shelf)?;
    let (bundles, merged) = check_merged(alloc, shelf, size)?;
    let one = check_folder(alloc, shelf, Folder::One, merged.kept)?;
    let forked = check_folder(alloc, shelf, Folder::Forked, one.kept)?;
    Ok(Report {
        bundles,
        blocks: merged.blocks,
        one: one.files,
        forked: forked.files,
    })
}

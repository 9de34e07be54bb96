//! The folder of merged blocks.

ghost use Rattle.std.specs.Prelude.{◌≡◌, ◌≤◌, ◌++◌, ◌∷◌, [], OnOk};
ghost use Rattle.one_block.specs.Files.{IsSize};
ghost use Rattle.shelf_check.specs.Merged.{EntriesAnswer, NextAnswers, ReadAnswers, FolderAnswers};

use crate::bundles::check_bundle;
use crate::faults::{LoadFault, bad_file, with_file};
use block_record::{BlockRef, TypeName};
use one_block::{merged_base_in, merged_folder};
use outer_world::{FileName, Shelf};
use std::alloc::{AllocError, Global};

/// What was read of files of merged blocks.
#[derive(Drop)]
pub struct MergedRead {
    /// Their type, if there are any.
    pub kept: Option<TypeName>,
    /// The last block.
    pub tip: Option<BlockRef>,
    /// How many blocks they have, or the greatest number of the type where there are more.
    pub blocks: u64,
}

/// Reads all files of merged blocks of this size, by their bases as numbers, and tells how many they
/// are.
pub fn check_merged<S: Shelf>(
    alloc: Global,
    shelf: &mut S,
    size: u64,
) -> Result<(u64, MergedRead), LoadFault>
    requires { IsSize size }
    ensures answer { FolderAnswers size (S.files shelf.old)
        (S.shelf_faults shelf.old) (S.shelf_faults shelf.new) result }
    ensures files { S.files shelf.new ≡ S.files shelf.old }
    ensures staged { S.staged shelf.new ≡ S.staged shelf.old }
    ensures later { S.shelf_faults shelf.old ≤ S.shelf_faults shelf.new }
{
    let mut names = Vec::new(alloc);
    shelf.list(alloc, merged_folder(size), &mut names)?;
    let mut entries = based_entries(alloc, size, names.as_slice())?;
    entries.sort_unstable();
    let read = check_entries(alloc, shelf, size, entries.as_slice())?;
    Ok((entries.len() as u64, read))
}

/// The names with their bases.
pub fn based_entries(
    alloc: Global,
    size: u64,
    names: &[FileName],
) -> Result<Vec<(u64, FileName)>, LoadFault>
    requires { IsSize size }
    ensures { EntriesAnswer size names.now result }
{
    let mut entries = Vec::new(alloc);
    for name in names {
        match merged_base_in(size, name) {
            Some(base) => add_entry(alloc, base, name, &mut entries)?,
            None => return Err(bad_file(alloc, name, 0)),
        }
    }
    Ok(entries)
}

/// Adds a base and a copy of a name.
pub fn add_entry(
    alloc: Global,
    base: u64,
    name: &FileName,
    entries: &mut Vec<(u64, FileName)>,
) -> Result<(), AllocError>
    ensures { OnOk result (entries.new.items ≡ entries.old.items ++ (base, name.now) ∷ []) }
{
    let copied = FileName::new(alloc, name.as_bytes())?;
    entries.push((base, copied))?;
    Ok(())
}

/// Reads files one after another.
fn check_entries<S: Shelf>(
    alloc: Global,
    shelf: &mut S,
    size: u64,
    entries: &[(u64, FileName)],
) -> Result<MergedRead, LoadFault>
    requires { IsSize size }
    ensures answer { ReadAnswers size (S.files shelf.old) entries.now
        (S.shelf_faults shelf.old) (S.shelf_faults shelf.new) result }
    ensures files { S.files shelf.new ≡ S.files shelf.old }
    ensures staged { S.staged shelf.new ≡ S.staged shelf.old }
    ensures later { S.shelf_faults shelf.old ≤ S.shelf_faults shelf.new }
{
    let mut read = MergedRead {
        kept: None,
        tip: None,
        blocks: 0,
    };
    for entry in entries {
        read = check_next(alloc, shelf, size, entry.0, &entry.1, read)?;
    }
    Ok(read)
}

/// Reads the file of this base and name after others.
fn check_next<S: Shelf>(
    alloc: Global,
    shelf: &mut S,
    size: u64,
    base: u64,
    name: &FileName,
    read: MergedRead,
) -> Result<MergedRead, LoadFault>
    requires { IsSize size }
    ensures answer { NextAnswers size (S.files shelf.old) base name.now read
        (S.shelf_faults shelf.old) (S.shelf_faults shelf.new) result }
    ensures files { S.files shelf.new ≡ S.files shelf.old }
    ensures staged { S.staged shelf.new ≡ S.staged shelf.old }
    ensures later { S.shelf_faults shelf.old ≤ S.shelf_faults shelf.new }
{
    let MergedRead { kept, tip, blocks } = read;
    match check_bundle(alloc, shelf, size, base, name, &kept, tip) {
        Ok(next) => Ok(MergedRead {
            kept: Some(next.block_type),
            tip: Some(next.tip),
            blocks: blocks.saturating_add(next.blocks),
        }),
        Err(fault) => Err(with_file(alloc, name, fault)),
    }
}

//! The files of a plan, written.

ghost use Rattle.std.specs.Prelude.{◌≡◌, ◌≤◌, IfErr, OnOk};
ghost use Rattle.std.specs.Arc.{arc_value};
ghost use Rattle.outer_world.specs.Shelves.{emptied};
ghost use Rattle.bundle_merger.specs.Containers.{blocks_of, bundle_text};
ghost use Rattle.bundle_merger.specs.ReadBack.{IsReadBack};
ghost use Rattle.bundle_merger.specs.Writes.{IsStopped, bundle_files, dead_file, dead_files, plan_files, told_with_all, one_file};

use crate::held::show_held;
use crate::messages::stage_blocks;
use block_record::{Block, Kind};
use one_block::{StoreFault, forked_name, merged_name};
use outer_world::{FileName, Shelf};
use std::alloc::Global;
use std::slice;
use std::sync::Arc;
use stored_blocks::BundlePlan;

/// Writes the files of a plan: first each block off the final path into `forked/`, in the plan's
/// order, and then the bundle, where the plan has final blocks. The text that was staged before is
/// given up. After a refusal some of the files may be there.
pub fn write_plan<S: Shelf>(
    alloc: Global,
    shelf: &mut S,
    plan: &BundlePlan,
    kind: &Kind,
) -> Result<(), StoreFault>
    ensures written { OnOk result (S.files shelf.new
        ≡ told_with_all (plan_files kind.now plan.now) (S.files shelf.old)) }
    // Else the files are those after a front of the writes, and a failure has raised the count.
    ensures stopped { IfErr result (IsStopped (plan_files kind.now plan.now)
        (S.files shelf.old) (S.files shelf.new)
        (S.shelf_faults shelf.old) (S.shelf_faults shelf.new)) }
    ensures emptied { OnOk result (S.staged shelf.new ≡ emptied (S.staged shelf.old)) }
    ensures later { S.shelf_faults shelf.old ≤ S.shelf_faults shelf.new }
    // Each of these files holds its blocks and nothing else.
    ensures held { IsReadBack kind.now plan.now }
{
    show_held(plan, kind);
    write_dead(alloc, shelf, plan.dead.as_slice(), kind)?;
    write_bundle(alloc, shelf, plan, kind)?;
    Ok(())
}

/// Writes each of these blocks into `forked/`, one after another.
fn write_dead<S: Shelf>(
    alloc: Global,
    shelf: &mut S,
    blocks: &[Arc<Block>],
    kind: &Kind,
) -> Result<(), StoreFault>
    ensures written { OnOk result (S.files shelf.new
        ≡ told_with_all (dead_files kind.now (blocks_of blocks.now)) (S.files shelf.old)) }
    ensures stopped { IfErr result (IsStopped (dead_files kind.now (blocks_of blocks.now))
        (S.files shelf.old) (S.files shelf.new)
        (S.shelf_faults shelf.old) (S.shelf_faults shelf.new)) }
    ensures emptied { OnOk result (S.staged shelf.new ≡ emptied (S.staged shelf.old)) }
    ensures later { S.shelf_faults shelf.old ≤ S.shelf_faults shelf.new }
{
    shelf.unstage();
    for block in blocks {
        let name = forked_name(alloc, block.num, &block.id)?;
        write_blocks(alloc, shelf, &name, slice::from_ref(block), kind)?;
    }
    Ok(())
}

/// Writes the bundle of a plan, where it has blocks.
fn write_bundle<S: Shelf>(
    alloc: Global,
    shelf: &mut S,
    plan: &BundlePlan,
    kind: &Kind,
) -> Result<(), StoreFault>
    ensures written { OnOk result (S.files shelf.new
        ≡ told_with_all (bundle_files kind.now plan.now.size plan.now.base (blocks_of plan.now.finals.items))
        (S.files shelf.old)) }
    ensures stopped { IfErr result
        (IsStopped (bundle_files kind.now plan.now.size plan.now.base (blocks_of plan.now.finals.items))
        (S.files shelf.old) (S.files shelf.new)
        (S.shelf_faults shelf.old) (S.shelf_faults shelf.new)) }
    ensures emptied { OnOk result (S.staged shelf.new ≡ emptied (S.staged shelf.old)) }
    ensures later { S.shelf_faults shelf.old ≤ S.shelf_faults shelf.new }
{
    if plan.finals.is_empty() {
        shelf.unstage();
        return Ok(());
    }
    let name = merged_name(alloc, plan.size, plan.base)?;
    write_blocks(alloc, shelf, &name, plan.finals.as_slice(), kind)?;
    Ok(())
}

/// Writes a container of these blocks' records as the file of this name, at once.
fn write_blocks<S: Shelf>(
    alloc: Global,
    shelf: &mut S,
    name: &FileName,
    blocks: &[Arc<Block>],
    kind: &Kind,
) -> Result<(), StoreFault>
    ensures written { OnOk result (S.files shelf.new
        ≡ told_with_all (one_file name.now (bundle_text kind.now (blocks_of blocks.now))) (S.files shelf.old)) }
    ensures stopped { IfErr result (IsStopped (one_file name.now (bundle_text kind.now (blocks_of blocks.now)))
        (S.files shelf.old) (S.files shelf.new)
        (S.shelf_faults shelf.old) (S.shelf_faults shelf.new)) }
    ensures emptied { OnOk result (S.staged shelf.new ≡ emptied (S.staged shelf.old)) }
    ensures later { S.shelf_faults shelf.old ≤ S.shelf_faults shelf.new }
{
    shelf.unstage();
    stage_blocks(alloc, shelf, blocks, kind)?;
    shelf.commit(name)?;
    Ok(())
}

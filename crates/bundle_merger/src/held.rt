//! What the files of a plan hold: its blocks, and nothing else.

ghost use Rattle.std.specs.Arc.{arc_value};
ghost use Rattle.std.specs.List.{AllByRecursion};
ghost use Rattle.block_record.specs.Records.{IsRecordable};
ghost use Rattle.block_record.specs.Texts.{IsTypeName};
ghost use Rattle.bundle_merger.specs.Containers.{blocks_of};
ghost use Rattle.bundle_merger.specs.ReadBack.{IsReadBack};

use block_record::{Block, Kind, show_recordable};
use dbin_file::container_is_read;
use std::sync::Arc;
use stored_blocks::BundlePlan;

/// Nothing but what the files of a plan hold, since each block has a record and each kind a type.
pub fn show_held(plan: &BundlePlan, kind: &Kind)
    ensures { IsReadBack kind.now plan.now }
{
    container_is_read();
    show_kind(kind);
    show_all(plan.finals.as_slice());
    show_all(plan.dead.as_slice());
}

/// Nothing but that the type of a kind is one.
fn show_kind(kind: &Kind)
    ensures { IsTypeName kind.now.block_type }
{
    let _type = kind.block_type.as_bytes();
}

/// Nothing but that each of these blocks has a record.
fn show_all(blocks: &[Arc<Block>])
    ensures { AllByRecursion IsRecordable (blocks_of blocks.now) }
{
    for block in blocks {
        show_recordable(block);
    }
}

//! Plans written and shed, one after another, until there is none.

ghost use Rattle.std.specs.Prelude.{◌≡◌, ◌≤◌, ◌<◌, [], ◌∷◌, IfErr, IfOk, IfSome, IfNone, None, OnOk};
ghost use Rattle.std.specs.Option.{option_map};
ghost use Rattle.bundle_model.specs.Laws.{IsFrontStored, IsOwnStored};
ghost use Rattle.bundle_model.specs.Plans.{next_plan};
ghost use Rattle.bundle_model.specs.Retained.{left_count, retained};
ghost use Rattle.block_relay.specs.Chronicle.{world_told};
ghost use Rattle.stored_blocks.specs.BundlePlans.{plan_seen};
ghost use Rattle.bundle_merger.specs.MergedFiles.{MergesAll, StaysKept};
ghost use Rattle.bundle_merger.specs.Merging.{AddsStored, ChangesStored, HasMerged, IsHalted, IsMerged, bundle_count, listed};

use crate::writes::write_plan;
use block_relay::Relay;
use one_block::StoreFault;
use outer_world::Shelf;
use std::alloc::Global;
use stored_blocks::BundlePlan;

/// What a merge did.
#[derive(Clone, Copy, PartialEq, Eq, Debug)]
pub struct Merged {
    /// The merged files that it wrote.
    pub bundles: u64,
    /// The final blocks that are stored after it.
    pub stored: u64,
}

/// Writes what is due to a shelf and sheds it, plan after plan, until there is none. A plan is shed
/// only once its files are written. After a refusal all that was shed is written, and some files of
/// the next plan may be there.
pub fn merge_owned<S: Shelf>(
    alloc: Global,
    relay: &mut Relay,
    shelf: &mut S,
) -> Result<Merged, StoreFault>
    ensures merged { IfOk result (IsMerged (world_told relay.old) (world_told relay.new)
        (S.files shelf.old) (S.files shelf.new)) }
    ensures halted { IfErr result (IsHalted (world_told relay.old) (world_told relay.new)
        (S.files shelf.old) (S.files shelf.new)
        (S.shelf_faults shelf.old) (S.shelf_faults shelf.new)) }

    // At each answer the relay differs by stored blocks alone.
    ensures entries { AddsStored relay.old.entries relay.new.entries }
    ensures stays { ChangesStored (world_told relay.old) (world_told relay.new) }
    ensures conflicts { relay.new.conflicts ≡ relay.old.conflicts }
    ensures later { S.shelf_faults shelf.old ≤ S.shelf_faults shelf.new }

    // What the files keep of the relay they go on to keep, and at Ok all bundles are there.
    ensures kept { StaysKept (world_told relay.old) (world_told relay.new)
        (S.files shelf.old) (S.files shelf.new) }
    ensures all { IfOk result
        (MergesAll (world_told relay.old) (S.files shelf.old) (S.files shelf.new)) }

    // What is known of the stored blocks stays so, and then few blocks are retained.
    ensures front { IsFrontStored (world_told relay.old) → IsFrontStored (world_told relay.new) }
    ensures own { IsOwnStored (world_told relay.old) → IsOwnStored (world_told relay.new) }
    ensures few { OnOk result (IsFrontStored (world_told relay.old)
        → retained (world_told relay.new)
        ≤ left_count (world_told relay.new).size (world_told relay.new).history) }
    ensures left { OnOk result (IsFrontStored (world_told relay.old)
        → IsOwnStored (world_told relay.old) → retained (world_told relay.new)
        ≡ left_count (world_told relay.new).size (world_told relay.new).history) }
{
    // There are no more plans than retained blocks; the world is sound, and bundles have a size.
    let _ = relay.retained();
    let _ = relay.len();
    let _ = relay.size();
    let mut bundles = 0;
    while let Some(plan) = merge_next(alloc, relay, shelf)? {
        bundles += bundles_in(&plan);
    }
    let stored = relay.stored_finals();
    Ok(Merged { bundles, stored })
}

/// Writes the next plan and sheds it, and gives it, where there is one. At a refusal nothing was shed.
fn merge_next<S: Shelf>(
    alloc: Global,
    relay: &mut Relay,
    shelf: &mut S,
) -> Result<Option<BundlePlan>, StoreFault>
    ensures merged { IfOk result
        (λ r. HasMerged (world_told relay.old) (world_told relay.new)
        (S.files shelf.old) (S.files shelf.new) (listed r)) }
    ensures last { IfOk result
        (λ r. r ≡ None → next_plan (world_told relay.new) ≡ None) }
    ensures fewer { IfOk result
        (λ r. IfSome r (λ _. retained (world_told relay.new)
        < retained (world_told relay.old))) }
    ensures halted { IfErr result (IsHalted (world_told relay.old) (world_told relay.new)
        (S.files shelf.old) (S.files shelf.new)
        (S.shelf_faults shelf.old) (S.shelf_faults shelf.new)) }
    ensures entries { AddsStored relay.old.entries relay.new.entries }
    ensures conflicts { relay.new.conflicts ≡ relay.old.conflicts }
    ensures later { S.shelf_faults shelf.old ≤ S.shelf_faults shelf.new }
{
    // The world of a relay is sound, and bundles have a size.
    let _ = relay.len();
    let _ = relay.size();
    let Some(plan) = relay.next_bundle()? else {
        return Ok(None);
    };
    write_plan(alloc, shelf, &plan, relay.kind().unwrap())?;
    relay.shed(&plan);
    Ok(Some(plan))
}

/// How many merged files a plan has: one, or none where it has no final block.
fn bundles_in(plan: &BundlePlan) -> u64
    ensures { result ≡ bundle_count (plan_seen plan.now ∷ []) }
{
    if plan.finals.is_empty() { 0 } else { 1 }
}

//! The items of a batch, given one after another with their blocks.

ghost use Rattle.std.specs.Prelude.{◌≡◌, ◌≤◌, ◌∷◌, List, map, None, IfOk, IfErr, IfSome, IsSome, OnErr};
ghost use Rattle.std.specs.List.{AllByRecursion};
ghost use Rattle.std.specs.Arc.{arc_value};
ghost use Rattle.std.specs.Option.{option_map};
ghost use Rattle.block_record.specs.Slips.{slip as slip_of_block};
ghost use Rattle.fork_db.specs.Batches.{HasOwnBlock};
ghost use Rattle.file_source.specs.Sources.{FetchRefused};
ghost use Rattle.join_source.specs.Items.{NeedsNoFile, left_of};
ghost use Rattle.join_source.specs.Answers.{GivesNext, IsFetchedFor, IsFetchedForFirst, IsRefused};

use crate::step::StepOut;
use block_record::Block;
use file_source::BlockSource;
use fork_db::StepItem;
use one_block::StoreFault;
use outer_world::Shelf;
use std::alloc::{AllocError, Global};
use std::collections::VecDeque;
use std::marker::Model;
use std::sync::Arc;

/// The items of a batch that are left to be sent, and where their blocks come from. Contracts see the
/// items.
#[derive(Drop)]
pub struct Joined {
    alloc: Global,
    items: VecDeque<StepItem>,
    source: BlockSource,
}

impl Model for Joined {
    ghost use Rattle.std.specs.Prelude.{List, map};
    ghost use Rattle.std.specs.List.{AllByRecursion};
    ghost use Rattle.fork_db.specs.Batches.{HasOwnBlock};
    ghost use Rattle.join_source.specs.Items.{Left, left_of};

    ghost Value = { List Left };

    ghost view = { λ t. map left_of t.items.items };

    ghost invariant = { λ t. AllByRecursion HasOwnBlock t.items.items };
}

impl Joined {
    /// These items, with the source that the blocks before them were read from.
    pub fn new(alloc: Global, items: Vec<StepItem>, source: BlockSource) -> Joined
        requires own { AllByRecursion HasOwnBlock items.items }
        ensures items { result ≡ map left_of items.items }
    {
        Joined {
            alloc,
            items: VecDeque::from_vec(items),
            source,
        }
    }

    /// The items that are left, and the source, which reads on after the block that it read last.
    pub fn into_parts(self) -> (Vec<StepItem>, BlockSource)
        ensures items { map left_of result.0.items ≡ self }
    {
        (self.items.into_vec(), self.source)
    }

    /// The next item, with the block that it holds, or else with that of the shelf. None after the
    /// last one. After a refusal the same item is next.
    pub fn next<S: Shelf>(&mut self, shelf: &mut S) -> Result<Option<StepOut>, StoreFault>
        ensures given { IfOk result (GivesNext self.old self.new) }
        ensures refused { IfErr result (IsRefused (S.files shelf.old) self.old
            (S.shelf_faults shelf.old) (S.shelf_faults shelf.new)) }
        ensures stays { OnErr result (self.new ≡ self.old) }
        // No call of the shelf is made for a block that is held.
        ensures untouched { NeedsNoFile self.old → shelf.new ≡ shelf.old }
        ensures files { S.files shelf.new ≡ S.files shelf.old }
        ensures staged { S.staged shelf.new ≡ S.staged shelf.old }
        ensures later { S.shelf_faults shelf.old ≤ S.shelf_faults shelf.new }
    {
        let Some(first) = self.items.front() else {
            return Ok(None);
        };
        let fetched = fetch_bare(self.alloc, &mut self.source, shelf, first)?;
        Ok(self.take_first(fetched))
    }

    /// Takes the first item, with the block that it holds, or else with the one that was fetched.
    fn take_first(&mut self, fetched: Option<Arc<Block>>) -> Option<StepOut>
        requires { IsFetchedForFirst self.old (option_map arc_value fetched) }
        ensures { GivesNext self.old self.new result }
    {
        let StepItem {
            step,
            slip: _,
            held,
            place,
        } = self.items.pop_front()?;
        let block = held.or(fetched).unwrap();
        Some(StepOut { step, block, place })
    }
}

/// The block of an item that does not hold it.
fn fetch_bare<S: Shelf>(
    alloc: Global,
    source: &mut BlockSource,
    shelf: &mut S,
    item: &StepItem,
) -> Result<Option<Arc<Block>>, StoreFault>
    ensures fetched { IfOk result (λ b. IsFetchedFor (left_of item.now) (option_map arc_value b)) }
    ensures bare { OnErr result (item.now.held ≡ None) }
    ensures refused { IfErr result (FetchRefused (S.files shelf.old) item.now.slip
        (S.shelf_faults shelf.old) (S.shelf_faults shelf.new)) }
    ensures untouched { IsSome item.now.held → shelf.new ≡ shelf.old }
    ensures files { S.files shelf.new ≡ S.files shelf.old }
    ensures staged { S.staged shelf.new ≡ S.staged shelf.old }
    ensures later { S.shelf_faults shelf.old ≤ S.shelf_faults shelf.new }
{
    if item.held.is_some() {
        return Ok(None);
    }
    let block = source.fetch_next(alloc, shelf, &item.slip)?;
    let block = share(alloc, block)?;
    Ok(Some(block))
}

/// The block, to be shared.
fn share(alloc: Global, block: Block) -> Result<Arc<Block>, AllocError>
    ensures { IfOk result (λ b. arc_value b ≡ block) }
{
    let block = Arc::new(alloc, block)?;
    Ok(block)
}

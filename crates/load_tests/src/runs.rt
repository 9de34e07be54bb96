//! Runs that take blocks, merge and sweep, over a shelf that stops.

use crate::relays::fresh;
use block_reader::{OwnFiles, take_owned};
use block_record::{Block, Bytes, Id, Kind, ReaderName, TypeName, Version};
use block_relay::Relay;
use bundle_merger::merge_owned;
use memory_world::{Fuse, MemoryShelf};
use one_block::{layout_name, size_text};
use outer_world::write_file;
use sha2::{Digest, Sha256};
use shelf_load::sweep_all;
use std::alloc::Global;
use std::test::Fail;

/// How blocks are taken: whether each but the first comes with another of its number before it, and
/// whether the bundles have 1,000 numbers.
#[derive(Clone, Copy)]
pub struct Form {
    pub forks: bool,
    pub wide: bool,
}

/// The relay and the shelf that a run leaves, and whether it came to its end.
#[derive(Drop)]
pub struct Run {
    pub relay: Relay,
    pub shelf: MemoryShelf,
    pub ended: bool,
}

/// A relay, and a shelf that stops.
#[derive(Drop)]
struct Plant {
    relay: Relay,
    shelf: Fuse<MemoryShelf>,
}

/// Takes a chain of blocks of these numbers, merges and sweeps, until the shelf stops after so many
/// calls.
pub fn run_until(alloc: Global, form: Form, nums: &[u64], calls: u64) -> Result<Run, Fail> {
    let mut plant = started(alloc, form.wide, calls)?;
    let ended = go_through(alloc, &mut plant, form.forks, nums)?;
    Ok(stopped(plant, ended))
}

/// An empty relay, and a shelf of the same size that stops after so many calls.
fn started(alloc: Global, wide: bool, calls: u64) -> Result<Plant, Fail> {
    let relay = greeted(alloc, wide)?;
    let shelf = sized(alloc, wide)?;
    Ok(Plant {
        relay,
        shelf: Fuse::new(shelf, calls),
    })
}

fn stopped(plant: Plant, ended: bool) -> Run {
    let Plant { relay, shelf } = plant;
    Run {
        relay,
        shelf: shelf.into_inner(),
        ended,
    }
}

fn kind(alloc: Global) -> Result<Kind, Fail> {
    let block_type = TypeName::new(alloc, b"test.Block")?.ok_or("no type")?;
    Ok(Kind {
        version: Version::V3,
        block_type,
    })
}

/// An empty relay of test.Block. A fresh one has bundles of 100 numbers.
fn greeted(alloc: Global, wide: bool) -> Result<Relay, Fail> {
    let mut relay = sized_relay(alloc, wide)?;
    let kind = kind(alloc)?;
    if relay.hello(&kind).is_ok() {
        Ok(relay)
    } else {
        Err("another kind".into())
    }
}

fn sized_relay(alloc: Global, wide: bool) -> Result<Relay, Fail> {
    let mut relay = fresh(alloc, 0, 300)?;
    if wide {
        relay.set_size(1_000);
    }
    Ok(relay)
}

/// A shelf that tells its size.
fn sized(alloc: Global, wide: bool) -> Result<MemoryShelf, Fail> {
    let mut shelf = MemoryShelf::new(alloc);
    let name = layout_name(alloc)?;
    write_file(&mut shelf, &name, layout_of(wide))?;
    Ok(shelf)
}

fn layout_of(wide: bool) -> &'static [u8] {
    if wide {
        size_text(1_000)
    } else {
        size_text(100)
    }
}

/// Takes a chain of blocks of these numbers, merges and sweeps, and tells whether the shelf went on.
fn go_through(alloc: Global, plant: &mut Plant, forks: bool, nums: &[u64]) -> Result<bool, Fail> {
    let taken = take_all(alloc, plant, forks, nums)?;
    Ok(taken && merge(alloc, plant) && sweep(alloc, plant))
}

fn merge(alloc: Global, plant: &mut Plant) -> bool {
    merge_owned(alloc, &mut plant.relay, &mut plant.shelf).is_ok()
}

fn sweep(alloc: Global, plant: &mut Plant) -> bool {
    sweep_all(alloc, &plant.relay, &mut plant.shelf).is_ok()
}

/// Takes a chain of blocks of these numbers, and tells whether the shelf went on.
fn take_all(alloc: Global, plant: &mut Plant, forks: bool, nums: &[u64]) -> Result<bool, Fail> {
    let mut parent = 0;
    for num in nums {
        if !take_at(alloc, plant, forks, *num, parent)? {
            return Ok(false);
        }
        parent = *num;
    }
    Ok(true)
}

/// Takes the blocks of a number.
fn take_at(
    alloc: Global,
    plant: &mut Plant,
    forks: bool,
    num: u64,
    parent: u64,
) -> Result<bool, Fail> {
    if forks && parent > 0 && !take_side(alloc, plant, num, parent)? {
        return Ok(false);
    }
    let block = block(alloc, "a", num, parent, num)?;
    let went_on = take(alloc, plant, block)?;
    Ok(went_on)
}

/// Takes the block of a number that stays off the final path.
fn take_side(alloc: Global, plant: &mut Plant, num: u64, parent: u64) -> Result<bool, Fail> {
    let block = block(alloc, "b", num, parent, parent)?;
    let went_on = take(alloc, plant, block)?;
    Ok(went_on)
}

/// A block whose id is a letter and its number, on the parent whose letter is a.
fn block(alloc: Global, letter: &str, num: u64, parent: u64, lib_num: u64) -> Result<Block, Fail> {
    if parent >= num {
        return Err("no parent".into());
    }
    let id = id_of(alloc, letter, num)?;
    let parent_id = id_of(alloc, "a", parent)?;
    let payload = b"1".as_slice();
    Ok(Block {
        num,
        id,
        parent_num: parent,
        parent_id,
        lib_num,
        time: 0,
        digest: Sha256::digest(payload),
        payload: Bytes::new(alloc, payload)?,
    })
}

fn id_of(alloc: Global, letter: &str, num: u64) -> Result<Id, Fail> {
    let text = format!(in alloc; "{letter}{num}")?;
    let id = Id::new(alloc, text.as_bytes())?.ok_or("no id")?;
    Ok(id)
}

/// Takes a block of the reader r1, and tells whether that was answered.
fn take(alloc: Global, plant: &mut Plant, block: Block) -> Result<bool, Fail> {
    let reader = ReaderName::new(alloc, b"r1")?.ok_or("no reader")?;
    let kind = kind(alloc)?;
    Ok(is_taken(alloc, plant, &reader, block, &kind))
}

fn is_taken(
    alloc: Global,
    plant: &mut Plant,
    reader: &ReaderName,
    block: Block,
    kind: &Kind,
) -> bool {
    // No block is stored, so no own file may go yet.
    let mut own = OwnFiles::new(alloc);
    take_owned(
        alloc,
        &mut plant.relay,
        &mut plant.shelf,
        reader,
        &mut own,
        block,
        kind,
    )
    .is_ok()
}

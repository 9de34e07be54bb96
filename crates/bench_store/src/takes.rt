//! Blocks taken into the shelf, one after another.

use crate::blocks::{Fault, block_of, kind_of, payload_of};
use crate::shelves::{Plant, new_plant};
use block_reader::take_owned;
use block_record::{Kind, ReaderName};
use bundle_merger::merge_owned;
use shelf_load::sweep_all;
use std::alloc::Global;

/// After so many blocks there is a merge.
const EVERY: u64 = 100;

/// The reader of the blocks.
#[derive(Drop)]
struct Taker {
    name: ReaderName,
    kind: Kind,
    payload: Vec<u8>,
}

/// A reader of blocks with so many bytes.
fn new_taker(alloc: Global, bytes: u64) -> Result<Taker, Fault> {
    Ok(Taker {
        name: name_of(alloc)?,
        kind: kind_of(alloc)?,
        payload: payload_of(alloc, bytes)?,
    })
}

/// The name of the reader.
fn name_of(alloc: Global) -> Result<ReaderName, Fault> {
    match ReaderName::new(alloc, b"r1")? {
        Some(name) => Ok(name),
        None => Err(Fault::Refused),
    }
}

/// Loads the shelf, takes the blocks of the chain after those that it has, up to this number, and prints
/// each number once it was answered. After each hundredth block it merges and sweeps.
pub fn take_blocks(rt: &HostRuntime, blocks: u64, bytes: u64) -> Result<(), Fault> {
    let taker = new_taker(rt.alloc(), bytes)?;
    let mut plant = new_plant(rt)?;
    take_all(rt, &taker, &mut plant, blocks)
}

/// Takes the blocks up to this number.
fn take_all(rt: &HostRuntime, taker: &Taker, plant: &mut Plant, blocks: u64) -> Result<(), Fault> {
    for num in plant.relay.len().saturating_add(1)..blocks.saturating_add(1) {
        take_block(rt.alloc(), taker, plant, num)?;
        tell(rt, num)?;
        if num % EVERY == 0 {
            merge_and_sweep(rt.alloc(), plant)?;
        }
    }
    Ok(())
}

/// Takes the block with this number.
fn take_block(alloc: Global, taker: &Taker, plant: &mut Plant, num: u64) -> Result<(), Fault> {
    let block = block_of(alloc, num, taker.payload.as_slice())?;
    let taken = take_owned(
        alloc,
        &mut plant.relay,
        &mut plant.shelf,
        &taker.name,
        &mut plant.own,
        block,
        &taker.kind,
    );
    match taken {
        Ok(_) => Ok(()),
        Err(_) => Err(Fault::Refused),
    }
}

/// Prints the number of a block that was answered.
fn tell(rt: &HostRuntime, num: u64) -> Result<(), Fault> {
    match rt.println(num) {
        Ok(()) => Ok(()),
        Err(_) => Err(Fault::Refused),
    }
}

/// Merges, and removes the files of `one/` that are needed no more.
fn merge_and_sweep(alloc: Global, plant: &mut Plant) -> Result<(), Fault> {
    if merge_owned(alloc, &mut plant.relay, &mut plant.shelf).is_err() {
        return Err(Fault::Refused);
    }
    match sweep_all(alloc, &plant.relay, &mut plant.shelf) {
        Ok(_) => Ok(()),
        Err(_) => Err(Fault::Refused),
    }
}

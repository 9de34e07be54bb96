//! A block of a reader, taken into a relay.

ghost use Rattle.std.specs.Prelude.{◌≡◌, ◌≤◌, [], ◌∷◌, IfOk, OnErr, OnOk};
ghost use Rattle.std.specs.Arc.{arc_value};
ghost use Rattle.std.specs.List.{IsDistinct};
ghost use Rattle.block_record.specs.Slips.{slip as slip_so};
ghost use Rattle.block_record.specs.Texts.{IsReaderName};
ghost use Rattle.outer_world.specs.Shelves.{HasShelfCause};
ghost use Rattle.one_block.specs.Heads.{HoldsBlocks};
ghost use Rattle.one_block.specs.OneFiles.{one_file_text};
ghost use Rattle.block_relay.specs.Chronicle.{world_told};
ghost use Rattle.block_reader.specs.Changes.{IsStopped, all_changes, changed_all, shelved};
ghost use Rattle.block_reader.specs.Kept.{AreOwn, KeepsTold};
ghost use Rattle.block_reader.specs.Own.{same_own};
ghost use Rattle.block_reader.specs.Takes.{IfAnswered, IfStore, IsOffered, IsPlaced, IsRefused, IsTaken};

use crate::faults::TakeFault;
use crate::names::{BlockNames, names_of};
use crate::own::OwnFiles;
use crate::places::place_file;
use crate::puts::put_noted;
use crate::sweeps::sweep_oldest;
use block_record::{Block, Kind, ReaderName, show_recordable};
use block_relay::{OfferFault, Offered, Relay};
use dbin_file::container_is_read;
use one_block::Put;
use outer_world::{Shelf, ShelfFail};
use std::alloc::{AllocError, Global};
use std::sync::Arc;

/// Takes a block of the reader: puts its file into `one/`, and offers it. After `Early` and `Stale` a
/// file that this call wrote is removed. After `Conflict` the block's file is written into `refused/`,
/// and that of `one/` is removed. After each other refusal it stays. Where the offer was answered `Ok`,
/// the two oldest own files are looked at, and each is removed whose block needs none any more.
pub fn take_owned<S: Shelf>(
    alloc: Global,
    relay: &mut Relay,
    shelf: &mut S,
    name: &ReaderName,
    own: &mut OwnFiles,
    block: Block,
    kind: &Kind,
) -> Result<Offered, TakeFault>
    requires own { AreOwn (S.files shelf.old) own.old }
    // The answer, and what the relay is then, is what the rules say of an offer of the block.
    ensures said { IfAnswered result (IsOffered relay.old relay.new (slip_so block)) }
    // Then its file was put, and all that the answer asks for was done.
    ensures placed { IfAnswered result (IsPlaced (world_told relay.new) kind.now block name.now
        (shelved (S.files shelf.old) own.old) (shelved (S.files shelf.new) own.new)) }
    // At a refusal of the store nothing was offered, or the offer was answered and what the answer asks
    // for was stopped.
    ensures store { IfStore result (IsRefused relay.old relay.new kind.now block name.now
        (shelved (S.files shelf.old) own.old) (shelved (S.files shelf.new) own.new)
        (S.shelf_faults shelf.old) (S.shelf_faults shelf.new)) }
    // Whatever the answer is, each own file is there with its block, and what told files keep of the
    // relay's world they go on to keep.
    ensures own { AreOwn (S.files shelf.new) own.new }
    ensures kept { KeepsTold (S.files shelf.old) (world_told relay.old)
        → KeepsTold (S.files shelf.new) (world_told relay.new) }
    ensures later { S.shelf_faults shelf.old ≤ S.shelf_faults shelf.new }
{
    // The relay's world is sound, no two own files have one name, and the block has a file.
    let _ = relay.len();
    let _ = own.len();
    show_file(&block, kind, name);
    let taken = take_block(alloc, relay, shelf, name, own, block, kind);
    let _ = relay.len();
    taken
}

/// Nothing but that a file of the block, by the reader, holds the block.
fn show_file(block: &Block, kind: &Kind, reader: &ReaderName)
    ensures holds { HoldsBlocks (one_file_text kind.now block.now) kind.now.block_type
        (block.now ∷ []) }
    ensures reader { IsReaderName reader.now }
{
    container_is_read();
    show_recordable(block);
    let _type = kind.block_type.as_bytes();
    let _reader = reader.as_bytes();
}

/// Takes the block, step by step.
fn take_block<S: Shelf>(
    alloc: Global,
    relay: &mut Relay,
    shelf: &mut S,
    name: &ReaderName,
    own: &mut OwnFiles,
    block: Block,
    kind: &Kind,
) -> Result<Offered, TakeFault>
    ensures taken { IsTaken relay.old relay.new kind.now block name.now
        (shelved (S.files shelf.old) own.old) (shelved (S.files shelf.new) own.new)
        (S.shelf_faults shelf.old) (S.shelf_faults shelf.new) result }
    ensures later { S.shelf_faults shelf.old ≤ S.shelf_faults shelf.new }
{
    let names = names_of(alloc, &block, name)?;
    let block = share(alloc, block)?;
    let offered = block.clone()?;
    let put = put_noted(alloc, shelf, name, own, &names.one, &block, kind)?;
    let answer = relay.offer(offered);
    settle(alloc, relay, shelf, own, &names, put, &block, kind, &answer)?;
    match answer {
        Ok(offered) => Ok(offered),
        Err(fault) => Err(TakeFault::Offer(fault)),
    }
}

/// The block, to be held in more than one place.
fn share(alloc: Global, block: Block) -> Result<Arc<Block>, AllocError>
    ensures { IfOk result (λ shared. arc_value shared ≡ block) }
{
    let shared = Arc::new(alloc, block)?;
    Ok(shared)
}

/// Does what the answer to the offer of a block asks for, once its own file was put.
fn settle<S: Shelf>(
    alloc: Global,
    relay: &Relay,
    shelf: &mut S,
    own: &mut OwnFiles,
    names: &BlockNames,
    put: Put,
    block: &Block,
    kind: &Kind,
    answer: &Result<Offered, OfferFault>,
) -> Result<(), ShelfFail>
    ensures done { OnOk result (shelved (S.files shelf.new) own.new
        ≡ changed_all (all_changes (world_told relay.now) put names.now.one names.now.refused
        (one_file_text kind.now block.now) answer.now (shelved (S.files shelf.old) own.old))
        (shelved (S.files shelf.old) own.old)) }
    ensures stopped { OnErr result (IsStopped (all_changes (world_told relay.now) put names.now.one
        names.now.refused (one_file_text kind.now block.now) answer.now
        (shelved (S.files shelf.old) own.old))
        (shelved (S.files shelf.old) own.old) (shelved (S.files shelf.new) own.new)) }
    ensures cause { HasShelfCause (S.shelf_faults shelf.old) (S.shelf_faults shelf.new) result }
{
    place_file(alloc, shelf, own, names, put, block, kind, answer)?;
    match answer {
        Ok(_) => sweep_oldest(relay, shelf, own),
        Err(_) => Ok(()),
    }
}

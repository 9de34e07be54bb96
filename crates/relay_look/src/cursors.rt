//! Whether a cursor fits a history.

ghost use Rattle.std.specs.Prelude.{◌≡◌, List, length, find, not};
ghost use Rattle.block_record.specs.declared.blocks.Slip.{Slip as SlipOf};
ghost use Rattle.std.specs.Option.{option_copied};
ghost use Rattle.chain_model.specs.Ancestry.{find_id, has_id};
ghost use Rattle.relay_look.specs.Answers.{seen_misfit};
ghost use Rattle.relay_model.specs.Looks.{end_fits as end_fits_in, ends_at_parent as ends_at_parent_in, id_of, is_ahead as is_ahead_in, lib_fits as lib_fits_in, misfit as misfit_in, shape_holds as shape_holds_in, unknown as unknown_in};

use crate::paths::{is_final, is_held, is_known, is_on_path, is_parent, is_ref, place_in};
use block_record::{BlockRef, Id};
use chain_model::{Place, Step};
use fork_db::ForkDb;
use step_cursor::{Cursor, MisfitField, Tail};

/// Whether the tail is of this run, and saw more blocks than there are.
pub fn is_ahead(run: u64, len: u64, tail: &Option<Tail>) -> bool
    ensures { (newest : List SlipOf) → len ≡ length newest → result ≡ is_ahead_in run newest tail.now }
{
    match tail {
        Some(tail) => tail.run == run && len < tail.seen,
        None => false,
    }
}

/// The first of the cursor's block, end and lib that is not known.
pub fn unknown<'a>(db: &ForkDb, cursor: &'a Cursor) -> Option<&'a Id>
    ensures { option_copied result ≡ unknown_in db.now.history cursor.now }
{
    if !is_known(db, &cursor.block.id) {
        return Some(&cursor.block.id);
    }
    match unknown_ref(db, &cursor.place.end) {
        Some(id) => Some(id),
        None => unknown_ref(db, &cursor.place.lib),
    }
}

/// The id of a block, where it is named and not known.
fn unknown_ref<'a>(db: &ForkDb, block: &'a Option<BlockRef>) -> Option<&'a Id>
    ensures { option_copied result
        ≡ find (λ id. not (has_id db.now.history id)) (id_of block.now) }
{
    let block = block.as_ref()?;
    if is_known(db, &block.id) {
        return None;
    }
    Some(&block.id)
}

/// The first field of the cursor that is wrong.
pub fn misfit(db: &ForkDb, run: u64, cursor: &Cursor) -> Option<MisfitField>
    ensures { result ≡ misfit_in run db.now.history cursor.now }
{
    let place = &cursor.place;
    if !is_held(db, &cursor.block) {
        return Some(MisfitField::Block);
    }
    if !end_fits(db, &place.end) {
        return Some(MisfitField::End);
    }
    if !lib_fits(db, &place.end, &place.lib) {
        return Some(MisfitField::Lib);
    }
    if !shape_holds(db, cursor.step, &cursor.block, place) {
        return Some(MisfitField::Step);
    }
    seen_fits(db, run, &cursor.tail)
}

/// The field of what was seen, where that is more than this run has.
fn seen_fits(db: &ForkDb, run: u64, tail: &Option<Tail>) -> Option<MisfitField>
    ensures { result ≡ seen_misfit run db.now.history tail.now }
{
    if is_ahead(run, db.len(), tail) {
        Some(MisfitField::Seen)
    } else {
        None
    }
}

/// Whether the end is there, and known with its number.
fn end_fits(db: &ForkDb, end: &Option<BlockRef>) -> bool
    ensures { result ≡ end_fits_in db.now.history end.now }
{
    match end {
        Some(end) => is_held(db, end),
        None => false,
    }
}

/// Whether the lib is there, known with its number, final, and on the path of the end.
fn lib_fits(db: &ForkDb, end: &Option<BlockRef>, lib: &Option<BlockRef>) -> bool
    ensures { result ≡ lib_fits_in db.now.history end.now lib.now }
{
    match lib {
        Some(lib) => {
            is_held(db, lib) && is_final(db, &lib.id) && is_on_path(db, &lib.id, place_in(db, end))
        }
        None => false,
    }
}

/// Whether the place may stand after a step of the kind with the block.
fn shape_holds(db: &ForkDb, step: Step, block: &BlockRef, place: &Place) -> bool
    ensures { result ≡ shape_holds_in db.now.history step block.now place.now }
{
    match step {
        Step::New => is_ref(block, &place.end),
        Step::Undo => ends_at_parent(db, &block.id, &place.end),
        Step::Final => is_ref(block, &place.lib),
        Step::NewFinal => is_ref(block, &place.end) && is_ref(block, &place.lib),
    }
}

/// Whether the end is the parent of a block, as that block itself names it.
fn ends_at_parent(db: &ForkDb, id: &Id, end: &Option<BlockRef>) -> bool
    ensures { result ≡ ends_at_parent_in end.now (find_id db.now.history id.now) }
{
    match db.find_slip(id) {
        Some(slip) => is_parent(slip, end),
        None => false,
    }
}

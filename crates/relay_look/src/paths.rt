//! What a history tells of a block that is named.

ghost use Rattle.std.specs.Prelude.{◌≡◌};
ghost use Rattle.std.specs.Option.{option_copied};
ghost use Rattle.chain_model.specs.Ancestry.{find_id, has_id};
ghost use Rattle.chain_model.specs.Finality.{ancestry_of, final_ancestry};
ghost use Rattle.chain_model.specs.Steps.{ancestry_at, parent_of};
ghost use Rattle.block_tree.specs.Places.{slip_of};
ghost use Rattle.relay_model.specs.Looks.{is_held as is_held_in, is_ref as is_ref_in};
ghost use Rattle.relay_model.specs.Offers.{tip_num};

use block_record::{BlockRef, Id, Slip};
use fork_db::ForkDb;

/// The number of the final tip, and 0 where there is none.
pub fn tip_number(db: &ForkDb) -> u64
    ensures { result ≡ tip_num db.now.history }
{
    match db.final_tip() {
        Some(tip) => db.slip(tip).num,
        None => 0,
    }
}

/// Whether a block has the id.
pub fn is_known(db: &ForkDb, id: &Id) -> bool
    ensures { result ≡ has_id db.now.history id.now }
{
    db.find(id).is_some()
}

/// Whether the block is known, with its number.
pub fn is_held(db: &ForkDb, block: &BlockRef) -> bool
    ensures { result ≡ is_held_in db.now.history block.now }
{
    match db.find_slip(&block.id) {
        Some(slip) => slip.num == block.num,
        None => false,
    }
}

/// Whether the block is this one.
pub fn is_ref(wanted: &BlockRef, block: &Option<BlockRef>) -> bool
    ensures { result ≡ is_ref_in wanted.now block.now }
{
    match block {
        Some(block) => block == wanted,
        None => false,
    }
}

/// Whether the block is the one that the slip names as its parent.
pub fn is_parent(child: &Slip, block: &Option<BlockRef>) -> bool
    ensures { result ≡ is_ref_in (parent_of child.now) block.now }
{
    match block {
        Some(block) => block.id == child.parent_id && block.num == child.parent_num,
        None => false,
    }
}

/// The place of the block with this id, where there is one.
pub fn place_in(db: &ForkDb, block: &Option<BlockRef>) -> Option<usize>
    ensures { ancestry_of db.now.history (slip_of db.now.history result)
        ≡ ancestry_at db.now.history block.now }
{
    match block {
        Some(block) => db.find(&block.id),
        None => None,
    }
}

/// Whether the path of a block has the id.
pub fn is_on_path(db: &ForkDb, id: &Id, last: Option<usize>) -> bool
    ensures { result ≡ has_id (ancestry_of db.now.history (slip_of db.now.history last)) id.now }
{
    let Some(at) = db.find(id) else {
        return false;
    };
    let Some(last) = last else {
        return false;
    };
    if last as u64 >= db.len() {
        return false;
    }
    db.on_path(at, last)
}

/// Whether the final path has the id.
pub fn is_final(db: &ForkDb, id: &Id) -> bool
    ensures { result ≡ has_id (final_ancestry db.now.history) id.now }
{
    is_on_path(db, id, db.final_tip())
}

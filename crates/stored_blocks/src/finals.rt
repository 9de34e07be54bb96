//! The final path of a history, by index from the root on.

ghost use Rattle.std.specs.Prelude.{◌≡◌, ◌<◌, length, IfSome, Some};
ghost use Rattle.std.specs.List.{slice_get};
ghost use Rattle.block_record.specs.declared.blocks.Slip.{Slip as SlipOf};
ghost use Rattle.block_tree.specs.Places.{slip_at, slip_of};
ghost use Rattle.bundle_model.specs.Bundles.{finals_up};

use crate::places::NumberedPlace;
use fork_db::ForkDb;

/// The final block at an index of the final path.
pub fn final_at(db: &ForkDb, index: u64) -> Option<usize>
    ensures value { slip_of db.now.history result ≡ slice_get (finals_up db.now.history) index }
    ensures range { IfSome result (λ at. at < length db.now.history) }
{
    match db.final_tip() {
        Some(tip) => db.ancestor_at(tip, index),
        None => None,
    }
}

/// A place with the number of its block.
pub fn numbered(db: &ForkDb, at: usize) -> NumberedPlace
    requires { at < length db.now.history }
    ensures { (s : SlipOf) → slip_at db.now.history at ≡ Some s
        → result ≡ record { num = s.num; place = at } }
{
    NumberedPlace {
        num: db.slip(at).num,
        place: at,
    }
}

//! Whether a block may come next in a history.

ghost use Rattle.std.specs.Prelude.{◌≡◌, ◌<◌, ◌∷◌, IsTrue};
ghost use Rattle.chain_model.specs.Ancestry.{IsHistory};

use block_record::Slip;
use block_tree::BlockTree;

/// Whether the block may come next.
pub fn may_follow(tree: &BlockTree, slip: &Slip) -> bool
    ensures { IsTrue result → IsHistory (slip.now ∷ tree.now.history) }
{
    if tree.len() == 0 {
        return true;
    }
    if tree.find(&slip.id).is_some() {
        return false;
    }
    match tree.find_slip(&slip.parent_id) {
        Some(parent) => is_child(slip, parent),
        None => false,
    }
}

/// Whether the block names the other as its parent, by number, and has a greater number.
fn is_child(slip: &Slip, parent: &Slip) -> bool
    ensures { IsTrue result
        → (parent.now.num ≡ slip.now.parent_num) × (slip.now.parent_num < slip.now.num) }
{
    parent.num == slip.parent_num && slip.parent_num < slip.num
}

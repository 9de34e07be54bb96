//! A waiting block, found by its id.

use block_record::{Block, Id, Slip};
use indexmap::Equivalent;
use std::hash::{Hash, Hasher};
use std::sync::Arc;

/// The slip of a waiting block, and the block where it is kept. Two are equal where their ids are.
#[derive(Drop)]
pub struct Waiter {
    pub slip: Slip,
    pub block: Option<Arc<Block>>,
}

impl PartialEq for Waiter {
    ghost use Rattle.wait_room.specs.Keys.{same_key, same_key_partial_equiv};

    ghost eq = { same_key };

    ghost laws = { same_key_partial_equiv };

    fn eq(&self, other: &Waiter) -> bool {
        self.slip.id == other.slip.id
    }
}

impl Eq for Waiter {
    ghost use Rattle.wait_room.specs.Keys.{same_key_equiv};

    ghost laws = { same_key_equiv };
}

impl Hash for Waiter {
    ghost use Rattle.std.specs.Prelude.{[], ◌∷◌};
    ghost use Rattle.wait_room.specs.Keys.{same_key_hash};

    ghost hash_input = { λ w. w.slip.id ∷ [] };

    ghost respects_eq = { same_key_hash.fed };

    fn hash<H: Hasher>(&self, state: &mut H) {
        self.slip.id.hash(state);
    }
}

impl Equivalent<Waiter> for &Id {
    ghost use Rattle.block_record.specs.Ids.{same_id, same_id_hash, same_id_equiv};

    ghost equivalent = { λ q w. same_id q.now w.slip.id };

    ghost respects_hash = { λ q w. same_id_hash.fed q.now w.slip.id };

    ghost respects_eq = { λ q x y. same_id_equiv.congr q.now x.slip.id y.slip.id };

    fn equivalent(&self, key: &Waiter) -> bool {
        **self == key.slip.id
    }
}

//! What is to be written next.

ghost use Rattle.std.specs.Prelude.{◌≡◌, ◌+◌, ◌%◌, IsTrue};
ghost use Rattle.bundle_model.specs.Bundles.{is_size};

use block_record::Block;
use std::sync::Arc;

/// A bundle that is to be written, and the blocks off the final path below its end. It has a size of
/// 100 or 1,000, and its base is a multiple of it.
#[derive(Drop)]
pub struct BundlePlan {
    /// How many numbers the bundle covers.
    pub size: u64,
    /// The first of them.
    pub base: u64,
    /// Its blocks, upwards: none where only those off the final path are left.
    pub finals: Vec<Arc<Block>>,
    /// The blocks off the final path with numbers under `below` that are not stored yet, in the order
    /// of the history.
    pub dead: Vec<Arc<Block>>,
    /// `base` and `size` together.
    pub below: u64,
    ghost sized: { IsTrue (is_size size) },
    ghost multiple: { base % size ≡ 0 },
    ghost ends: { below ≡ base + size },
}

//! Who knows which blocks have come.

ghost use Rattle.std.specs.Prelude.{◌≡◌, List};
ghost use Rattle.block_record.specs.declared.blocks.Slip.{Slip as SlipOf};
ghost use Rattle.chain_model.specs.Ancestry.{has_id};

use block_record::Id;

/// A history that can be asked whether an id is known. Contracts see its blocks.
pub trait Holds {
    ghost history: { Self → List SlipOf };

    /// Whether one of the blocks has the id.
    fn holds(&self, id: &Id) -> bool
        ensures { result ≡ has_id (history self.now) id.now };
}

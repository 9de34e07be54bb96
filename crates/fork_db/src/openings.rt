//! Where a client begins.

ghost use Rattle.std.specs.Prelude.{◌≡◌, ◌<◌, find, length, nat_lt, IfOk, IfSome, Some};
ghost use Rattle.chain_model.specs.Finality.{ancestry_of};
ghost use Rattle.chain_model.specs.Places.{opening as opening_in};
ghost use Rattle.chain_model.specs.Steps.{ref_of};
ghost use Rattle.block_tree.specs.Places.{slip_of};

use crate::chunks::reference;
use crate::db::ForkDb;
use block_record::Slip;
use block_tree::BlockTree;
use chain_model::Place;
use link_rows::Uncounted;
use std::alloc::AllocError;

impl ForkDb {
    /// The place of a client that begins at this number: the last final block with a lower number,
    /// as end and as lib, or none of both.
    pub fn opening(&self, start: u64) -> Result<Place, AllocError>
        ensures { IfOk result (λ p. p ≡ opening_in self.now.history start) }
    {
        match last_below(&self.tree, self.final_tip(), start) {
            Some(at) => {
                let place = place_at(self.tree.slip(at))?;
                Ok(place)
            }
            None => Ok(Place {
                end: None,
                lib: None,
            }),
        }
    }
}

/// The last block of the path of a block with a number below the start.
fn last_below(tree: &BlockTree, at: Option<usize>, start: u64) -> Option<usize>
    ensures value { slip_of tree.now.history result ≡ find (λ s. nat_lt s.num start)
        (ancestry_of tree.now.history (slip_of tree.now.history at)) }
    ensures range { IfSome result (λ p. p < length tree.now.history) }
{
    let at = at?;
    if start == 0 {
        return None;
    }
    if at >= tree.len() {
        return None;
    }
    tree.last_up_to(at, start - 1, &mut Uncounted)
}

/// The place of a client that knows the block and all before it to be final.
fn place_at(block: &Slip) -> Result<Place, AllocError>
    ensures end { IfOk result (λ p. p.end ≡ Some (ref_of block.now)) }
    ensures lib { IfOk result (λ p. p.lib ≡ Some (ref_of block.now)) }
{
    Ok(Place {
        end: Some(reference(block)?),
        lib: Some(reference(block)?),
    })
}

//! The laws of the order from scratch: which head, final tip and blocks a relay that began empty
//! has, whatever the order in which blocks were offered. The functions have no body: the contract
//! of each is the law, or a table of small runs.
#![tactic(auto)]

ghost use Rattle.relay_laws.specs.Laws.{TipFromScratch, FromScratch};
ghost use Rattle.relay_laws.specs.Tables.{ScratchTable};

/// The final tip of a run is that of the order from scratch, and each block is on the same path.
pub fn tip_from_scratch()
    ensures { TipFromScratch }
{}

/// Head, final tip and the blocks whose path contains it are those of the order from scratch.
pub fn from_scratch()
    ensures { FromScratch }
{}

/// What the order from scratch and the history have, by examples.
pub fn scratch_table()
    ensures { ScratchTable }
{}

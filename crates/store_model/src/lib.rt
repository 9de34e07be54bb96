//! What a shelf keeps of a relay, as definitions, and the laws of loading. The functions have no
//! body: the contract of each is the law.
#![tactic(auto)]

ghost use Rattle.store_model.specs.Tables.{ShelfTable};
ghost use Rattle.store_model.specs.Laws.{LoadKeeps, OrderDecidesClaims};
ghost use Rattle.store_model.specs.StoredLaws.{
  SettledBy,
  OfferKeepsFront,
  OfferKeepsOwn,
};
ghost use Rattle.store_model.specs.StepLaws.{
  OfferStaysKept,
  NoteStaysKept,
  SweepKeeps,
  RemovalKeeps,
  DeadArePassed,
  BundleKeeps,
  BundleShows,
  ShedKeeps,
  HeldIsDuplicate,
};

/// Loading brings back every block of the history, with the old final path as a front of the new one.
pub fn load_keeps()
    ensures { LoadKeeps }
{}

/// An offer of a block that a file of one block shows, whatever its answer is.
pub fn offer_stays_kept()
    ensures { OfferStaysKept }
{}

/// A step that moves no block of the history, no waiting one and no stored place.
pub fn note_stays_kept()
    ensures { NoteStaysKept }
{}

/// The removal of a file of `one/` that may be swept.
pub fn sweep_keeps()
    ensures { SweepKeeps }
{}

/// The removal of a file of `one/` whose block is not held.
pub fn removal_keeps()
    ensures { RemovalKeeps }
{}

/// Each dead block of a plan is passed.
pub fn dead_are_passed()
    ensures { DeadArePassed }
{}

/// The bundle of a plan, put into its folder.
pub fn bundle_keeps()
    ensures { BundleKeeps }
{}

/// A plan is shed whose blocks are shown where stored blocks are looked for.
pub fn shed_keeps()
    ensures { ShedKeeps }
{}

/// A block that is held is answered as a duplicate.
pub fn held_is_duplicate()
    ensures { HeldIsDuplicate }
{}

/// Whether claims agree from a root is decided by the order from scratch.
pub fn order_decides_claims()
    ensures { OrderDecidesClaims }
{}

/// Each block of a bundle that was put is shown where stored final blocks are looked for.
pub fn bundle_shows()
    ensures { BundleShows }
{}

/// Each stored block is final or passed.
pub fn settled_by()
    ensures { SettledBy }
{}

/// The stored final blocks stay those of the first bundles, whatever is offered.
pub fn offer_keeps_front()
    ensures { OfferKeepsFront }
{}

/// An offer stores nothing, and keeps what is known of what is stored.
pub fn offer_keeps_own()
    ensures { OfferKeepsOwn }
{}

/// What small shelves give.
pub fn shelf_table()
    ensures { ShelfTable }
{}

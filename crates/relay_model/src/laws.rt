//! Laws of one offer and one look, and tables of what the definitions give.

ghost use Rattle.relay_model.specs.Tables.{OfferTable, LookTable, OrderTable};
ghost use Rattle.relay_model.specs.Laws.{
  OfferKeeps,
  OfferGrows,
  RefusalKeeps,
  OfferAdds,
  BatchFits,
  GivenCursors,
};

/// What offers are answered, by examples.
pub fn offer_table()
    ensures { OfferTable }
{}

/// What looks are answered, by examples.
pub fn look_table()
    ensures { LookTable }
{}

/// Orders from scratch, by examples.
pub fn order_table()
    ensures { OrderTable }
{}

/// An offer leaves a sound world sound.
pub fn offer_keeps()
    ensures { OfferKeeps }
{}

/// The history only grows.
pub fn offer_grows()
    ensures { OfferGrows }
{}

/// A refusal changes nothing but that a conflict is noted.
pub fn refusal_keeps()
    ensures { RefusalKeeps }
{}

/// The entries of an offer bring the world that it leaves.
pub fn offer_adds()
    ensures { OfferAdds }
{}

/// A batch at the start begins at a place that fits: the opening of the start, or that of a cursor,
/// which fits and saw no more of this run than there is.
pub fn batch_fits()
    ensures { BatchFits }
{}

/// A cursor that this run gave is taken up in every later history.
pub fn given_cursors()
    ensures { GivenCursors }
{}

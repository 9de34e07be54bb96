//! The laws of histories, steps and places. Each function has no body: its contract is the law, and
//! its proof shows that the law follows from the definitions of `chain_model`.
#![tactic(auto)]

ghost use Rattle.chain_laws.specs.Laws.{
  FinalPathGrows,
  ClaimsAgreeInAnyOrder,
  FinalInAnyOrder,
  ClaimsGoOnToAgree,
  OpeningFits,
  PlacesFit,
  PlaceReached,
  StepsFold,
  OpeningFolds,
  OldestIsFront,
};

/// The final path only grows: no block on it is ever off it again.
pub fn final_path_grows()
    ensures { FinalPathGrows }
{}

/// Whether claims agree does not depend on the order of the blocks.
pub fn claims_agree_in_any_order()
    ensures { ClaimsAgreeInAnyOrder }
{}

/// The final path does not depend on the order of the blocks.
pub fn final_in_any_order()
    ensures { FinalInAnyOrder }
{}

/// Claims go on to agree where the next one agrees with the final tip alone.
pub fn claims_go_on_to_agree()
    ensures { ClaimsGoOnToAgree }
{}

/// An opening fits.
pub fn opening_fits()
    ensures { OpeningFits }
{}

/// Every place on the way to a target fits every later history.
pub fn places_fit()
    ensures { PlacesFit }
{}

/// The place after all steps is at the end of the target, and no steps lead on from it.
pub fn place_reached()
    ensures { PlaceReached }
{}

/// The steps lead a client from its place to the target, whatever its base.
pub fn steps_fold()
    ensures { StepsFold }
{}

/// The steps from an opening lead a client that has nothing to the target.
pub fn opening_folds()
    ensures { OpeningFolds }
{}

/// The oldest blocks are the front of the history.
pub fn oldest_is_front()
    ensures { OldestIsFront }
{}

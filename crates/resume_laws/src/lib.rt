//! The laws of sessions that follow each other by cursors. Each function has no body: its contract
//! is the law, and its proof shows that the law follows from the definitions of `chain_model`.
#![tactic(auto)]

ghost use Rattle.resume_laws.specs.Laws.{
  CursorsFit,
  DoneStays,
  FoldKeepsFinals,
  BatchesGoOn,
  BatchesStay,
  Resumption,
  ChainGoesOn,
  NeverOlder,
};

/// The cursor of each step fits every later history.
pub fn cursors_fit()
    ensures { CursorsFit }
{}

/// Once the final tip has reached the stop, no further step comes.
pub fn done_stays()
    ensures { DoneStays }
{}

/// A fold keeps the blocks that it counts as final, whatever the steps are.
pub fn fold_keeps_finals()
    ensures { FoldKeepsFinals }
{}

/// A session goes on at the place where it was.
pub fn batches_go_on()
    ensures { BatchesGoOn }
{}

/// The batches of a session do not change when the history grows.
pub fn batches_stay()
    ensures { BatchesStay }
{}

/// What a client makes of a chain of sessions: it loses no step and repeats none.
pub fn resumption()
    ensures { Resumption }
{}

/// What a client makes of a chain of sessions that begins where it stands.
pub fn chain_goes_on()
    ensures { ChainGoesOn }
{}

/// No client is ever told of an older history.
pub fn never_older()
    ensures { NeverOlder }
{}

//! Laws of the own files of readers that share a shelf. The functions have no body: the contract of
//! each is a law, and its proof shows that it follows from what a take and a merge say.
#![tactic(auto)]

ghost use Rattle.own_laws.specs.Laws.{
  TakeStaysAway,
  NothingStaysAway,
  TakesGoOn,
  OwnStayBy,
  OthersStay,
  MergesStay,
  HaltsStay,
};

/// A take of a reader changes no files but those of this reader.
pub fn take_stays_away()
    ensures { TakeStaysAway }
{}

/// The same is true where nothing changed.
pub fn nothing_stays_away()
    ensures { NothingStaysAway }
{}

/// And of takes of the reader, one after another.
pub fn takes_go_on()
    ensures { TakesGoOn }
{}

/// Where all own files are by the reader, they go on to be.
pub fn own_stay_by()
    ensures { OwnStayBy }
{}

/// The own files of another reader are there as before.
pub fn others_stay()
    ensures { OthersStay }
{}

/// A merge leaves the own files of each reader as they are.
pub fn merges_stay()
    ensures { MergesStay }
{}

/// So does a merge that stopped.
pub fn halts_stay()
    ensures { HaltsStay }
{}

//! What the table is by itself: laws of its definitions. These functions do nothing.
ghost use Rattle.std.specs.Prelude.{◌≡◌, ℕ, List, length};
ghost use Rattle.node_supervisor.specs.Runs.{OneAnswer, OneRun};

/// For each standing and event the table has one answer, and no other.
pub fn one_answer()
    ensures { OneAnswer }
{}

/// From each standing each list of events has one list of actions and one end, and no other.
pub fn one_run()
    ensures { OneRun }
{}

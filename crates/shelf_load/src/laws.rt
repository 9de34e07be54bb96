//! A law of loading. The function has no body: its contract is the law.

ghost use Rattle.shelf_load.specs.LoadLaws.{TakingIsLoading};

/// Blocks that are taken one after another, offered again where they were put by, and stored where they
/// came late, leave the world that loading is defined to leave, with the same blocks stored.
pub fn taking_is_loading()
    ensures { TakingIsLoading }
{}

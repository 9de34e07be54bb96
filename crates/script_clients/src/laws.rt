//! Laws of the clients of a replay. The functions have no body: the contract of each is a law.

ghost use Rattle.script_clients.specs.Laws.{AreMap, ServedStay};

/// The clients are a map from their names.
pub fn clients_are_map()
    ensures { AreMap }
{}

/// A relay goes on to serve all clients as its history grows.
pub fn served_stay()
    ensures { ServedStay }
{}

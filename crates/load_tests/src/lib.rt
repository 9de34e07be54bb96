//! Tests of shelves that are loaded into a relay, and of what a stop leaves on one, over shelves in
//! memory.
#![tactic(auto)]

#[cfg(test)]
mod files;
#[cfg(test)]
mod loads;
#[cfg(test)]
mod relays;
#[cfg(test)]
mod runs;
#[cfg(test)]
mod stops;
#[cfg(test)]
mod sweeps;

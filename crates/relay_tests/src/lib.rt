//! Tests of a relay's looks, of what takes blocks in, and of the relay.
#![tactic(auto)]

#[cfg(test)]
mod intakes;
#[cfg(test)]
mod looks;
#[cfg(test)]
mod relays;

//! Tests of scripts.
#![tactic(auto)]

#[cfg(test)]
mod events;
#[cfg(test)]
mod lines;

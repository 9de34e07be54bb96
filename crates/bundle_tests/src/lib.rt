//! Tests of bundles that are merged, and of blocks that are taken with a file of their own, over a relay
//! and a shelf in memory.
#![tactic(auto)]

#[cfg(test)]
mod blocks;
#[cfg(test)]
mod forks;
#[cfg(test)]
mod merges;
#[cfg(test)]
mod plants;
#[cfg(test)]
mod shelves;
#[cfg(test)]
mod takes;

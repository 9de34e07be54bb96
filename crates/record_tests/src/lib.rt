//! Tests of the crates of blocks, of what is read and written of them, and of the rules of a history.
#![tactic(auto)]

#[cfg(test)]
mod containers;
#[cfg(test)]
mod cursors;
#[cfg(test)]
mod files;
#[cfg(test)]
mod folds;
#[cfg(test)]
mod ids;
#[cfg(test)]
mod lines;
#[cfg(test)]
mod records;
#[cfg(test)]
mod rules;

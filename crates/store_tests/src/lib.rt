//! Tests of the outside, of shelves, of what stands on them, and of the command that checks one.
#![tactic(auto)]

#[cfg(test)]
mod checks;
#[cfg(test)]
mod commands;
#[cfg(test)]
mod folders;
#[cfg(test)]
mod names;
#[cfg(test)]
mod puts;
#[cfg(test)]
mod records;
#[cfg(test)]
mod shelves;
#[cfg(test)]
mod sources;
#[cfg(test)]
mod streams;
#[cfg(test)]
mod writes;

//! Tests of what clients and a plant say to one another.
#![tactic(auto)]

#[cfg(test)]
mod plants;
#[cfg(test)]
mod printing;
#[cfg(test)]
mod replies;
#[cfg(test)]
mod requests;
#[cfg(test)]
mod sessions;

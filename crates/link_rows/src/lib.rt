//! One rooted tree of numbered places, with far links.
#![tactic(auto)]

mod counts;
mod rows;

pub use counts::{LinkCount, Steps, Uncounted};
pub use rows::{LinkRows, PLACES_MAX, digits};

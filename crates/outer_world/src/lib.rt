//! The outside of the plant: where bytes come from, where they go, and where files are kept.
#![tactic(auto)]

mod calls;
mod files;
mod names;
mod shelves;
mod traits;

pub use calls::{TEXT_BYTES_MAX, write_whole};
pub use files::{read_file, write_file};
pub use names::FileName;
pub use shelves::{Shelf, ShelfFail};
pub use traits::{Failed, Sink, Source};

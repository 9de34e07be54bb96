//! Sources, sinks and shelves in memory: some never fail, and others cut their bytes, or fail as a list
//! says or after some calls.
#![tactic(auto)]

mod fuse;
mod guarded;
mod guarded_shelf;
mod memory;
mod memory_shelf;
mod pieces;
mod plans;
mod stored_files;

pub use fuse::{Fuse, FuseWire};
pub use guarded::{Guard, Guarded};
pub use memory::{MemorySink, MemorySource};
pub use memory_shelf::MemoryShelf;
pub use pieces::PiecesSource;
pub use plans::{FailingShelf, FailingSink, FailingSource, FaultPlan};

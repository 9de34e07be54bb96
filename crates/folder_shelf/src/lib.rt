//! The shelf over a folder of the disk, and the lock that keeps the folder for one process.
#![tactic(auto)]

mod disk;
mod faults;
mod folder;
mod folder_lock;
mod names;
mod open_file;
mod places;
mod shelf;
mod stage_file;
mod unflushed;

pub use folder_lock::{FolderLock, LockFail};
pub use shelf::FolderShelf;

//! What a client makes of the steps that it is sent.
#![tactic(auto)]

mod folder;

pub use folder::{FoldFault, Folder};

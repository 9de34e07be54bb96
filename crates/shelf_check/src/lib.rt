//! The whole shelf, read and compared with the rules of its folders.
#![tactic(auto)]

mod bundles;
mod check;
mod faults;
mod folders;
mod laws;
mod merged;
mod singles;

pub use bundles::{BundleRead, check_bundle};
pub use check::{Report, check_shelf};
pub use faults::{LoadFault, ReadFault, bad_file, with_name};
pub use folders::{folder_text, read_text};
pub use laws::good_files_are_taken;
pub use merged::{add_entry, based_entries};
pub use singles::check_single;

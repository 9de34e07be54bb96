//! Names of the plant's files, as texts and as values, and what the texts of its files hold.
#![tactic(auto)]

mod containers;
mod faults;
mod file_faults;
mod files;
mod forms;
mod heads;
mod laws;
mod layout;
mod moments;
mod names;
mod parse;
mod print;
mod put;
mod read;
mod singles;

pub use containers::{FileContents, copy_type, end_place, fault_place, read_contents, read_record};
pub use faults::{Put, StoreFault};
pub use file_faults::FileFault;
pub use files::{
    bare_name, forked_name, merged_base, merged_base_in, merged_folder, merged_name, whole_name,
};
pub use forms::{Folder, Form, form_of, own_name};
pub use heads::{decode_at, head_type};
pub use laws::{files_are_read, layouts_are_read, names_are_read};
pub use layout::{layout_name, read_layout, size_text};
pub use names::{NameParts, name_of};
pub use parse::parse_name;
pub use put::{one_file, put_block};
pub use read::read_filled;
pub use singles::{SingleRead, read_block, read_single};

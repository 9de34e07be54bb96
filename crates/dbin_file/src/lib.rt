//! Containers of messages: written, and read in any pieces.
#![tactic(auto)]

mod faults;
mod headers;
mod laws;
mod messages;
mod reader;

pub use faults::DbinFault;
pub use headers::header;
pub use laws::{container_is_read, read_is_spelled, whole_is_container};
pub use messages::{MESSAGE_BYTES_MAX, message};
pub use reader::DbinReader;

//! The records of the plant: ids, blocks and their slips.
#![tactic(auto)]

mod blocks;
mod buffers;
mod bytes;
mod digests;
mod faults;
mod ids;
mod numbers;
mod readers;
mod records;
mod slip_refs;
mod types;

pub use blocks::{Block, BlockRef, Kind, PAYLOAD_BYTES_MAX, Slip, Version};
pub use buffers::SlipBuffer;
pub use bytes::Bytes;
pub use digests::{copy_slip, into_slip, slip_of};
pub use faults::RecordFault;
pub use ids::{Id, is_id};
pub use numbers::read_number;
pub use readers::ReaderName;
pub use records::{decode, encode, encode_old, push_record, show_recordable};
pub use slip_refs::SlipRef;
pub use types::{TypeName, is_type_name};

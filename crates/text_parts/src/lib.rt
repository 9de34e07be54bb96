//! Texts made of parts, appended to a buffer. No part takes memory of its own, and without memory
//! the buffer stays as it was.
#![tactic(auto)]

mod cut;
mod encode;
mod escape;
mod parts;

pub use cut::keep_front;
pub use encode::{encode_tail, push_base64};
pub use parts::{Part, push_part, push_parts};

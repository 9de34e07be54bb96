//! What takes blocks in: the history, the blocks that wait for their parents, and the rules that say
//! which block is admitted, which waits, and which is refused and why.
#![tactic(auto)]

mod answers;
mod buffers;
mod drops;
mod intake;
mod judged;
mod limits;
mod taking;

pub use answers::{OfferFault, Offered};
pub use buffers::reserve_buffers;
pub use intake::{Admission, Intake};
pub use judged::Judged;
pub use limits::IntakeLimits;
pub use relay_model::{Conflict, ConflictKind};

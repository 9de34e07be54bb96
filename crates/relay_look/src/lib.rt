//! What a client that looks at a history is given next.
#![tactic(auto)]

mod answers;
mod cursors;
mod looks;
mod paths;

pub use answers::{Look, LookFault, Position};
pub use cursors::misfit;
pub use looks::look;
pub use paths::tip_number;

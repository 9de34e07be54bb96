//! When a child process is started, read, rested and given up: a table over events. It has no
//! clock, starts no process and takes no memory.
#![tactic(auto)]

mod event;
mod laws;
mod state;
mod supervisor;

pub use event::{Action, Event};
pub use laws::{one_answer, one_run};
pub use state::State;
pub use supervisor::Supervisor;

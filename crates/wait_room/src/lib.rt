//! The room where blocks wait for their parents.
#![tactic(auto)]

mod children;
mod holds;
mod numbers;
mod room;
mod scans;
mod waiters;

pub use holds::Holds;
pub use room::WaitRoom;

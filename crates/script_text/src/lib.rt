//! The text of a script: settings, then the events of a plant in order.
#![tactic(auto)]

mod events;
mod faults;
mod lines;
mod names;
mod parse;
mod script;
mod settings;
mod words;

pub use faults::ScriptFault;
pub use parse::parse_script;
pub use script::{Event, Script};

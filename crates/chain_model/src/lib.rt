//! The rules of a history of blocks with forks: paths, finality, the head, and the steps that lead
//! a client from a place to a target.
#![tactic(auto)]

mod places;
mod plain;
mod scans;
mod steps;

pub use places::{Mode, Place, PlainStep, Step};
pub use plain::{place_to, plain_steps};
pub use scans::{
    ancestry_in, claim_of, contains_id, final_path_of, final_tip_of, head_of, root_number,
    target_of,
};

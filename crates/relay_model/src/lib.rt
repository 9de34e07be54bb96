//! The rules of a relay: what it answers to an offered block and to a look, which world its
//! entries stand for, and the order of received blocks from scratch. The functions have no body:
//! the contract of each is a law of these rules, or a table of what they give.
#![tactic(auto)]

mod answers;
mod laws;

pub use answers::{Conflict, ConflictKind};
pub use laws::{
    batch_fits, given_cursors, look_table, offer_adds, offer_grows, offer_keeps, offer_table,
    order_table, refusal_keeps,
};

//! What the table keeps of each pass. No value of these types is made: they exist in proofs alone.
use std::collections::LinkedList;

/// Where a pass stands.
pub enum Stage<E> {
    /// It has no ticket.
    Idle,
    /// It drew this ticket, and waits for it to be served.
    Waits(u64),
    /// It is in turn and has taken the value, whose list it found.
    Runs(LinkedList<E>),
    /// It is in turn, found this list and leaves the value in its place: the turn that closes.
    Ends(LinkedList<E>),
}

/// What a pass knows.
pub struct View<E> {
    pub stage: Stage<E>,
    /// The list that it has seen.
    pub seen: LinkedList<E>,
    /// The two lists that the last join put together.
    pub first_old: LinkedList<E>,
    pub second_old: LinkedList<E>,
    pub leads: bool,
    /// The two passes that the last join put together both led, which never happens.
    pub both_led: bool,
    /// All tickets were drawn.
    pub over: bool,
    /// How many tickets it drew, and the passes that it took in.
    pub drawn: u64,
    /// No other pass of the cell was made.
    pub sole: bool,
}

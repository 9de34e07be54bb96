//! What came of a client's event.

/// What came of a client's event.
#[derive(Clone, Copy, PartialEq, Eq, Debug)]
pub enum Turn {
    /// Nothing: the client waits for more than this many blocks.
    NotYet { len: u64 },
    /// It was sent what there was to send.
    Sent,
    /// Nothing: it was over before.
    WasOver,
}

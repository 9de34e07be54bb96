//! What a supervisor is told, and what it answers.

/// What happened to the child, or what its owner asks.
#[derive(Clone, Copy, PartialEq, Eq, Debug)]
pub enum Event {
    /// The owner is ready to run the child.
    Begin,
    /// The start that was asked for went through.
    Started,
    /// The start that was asked for failed.
    StartFailed,
    /// The child did useful work: once for each thing of its output that was taken in or was known.
    Admitted,
    /// The child ended, with its exit code, or with none where a signal ended it or none is known.
    Exited { code: Option<u8> },
    /// A read of the child failed, or it wrote what cannot be read.
    Broken,
    /// The wait that was asked for is over.
    Waited,
    /// The owner wants an end.
    Stop,
}

/// What the owner is to do next.
#[derive(Clone, Copy, PartialEq, Eq, Debug)]
pub enum Action {
    /// Start the child, and tell `Started` or `StartFailed`.
    Start,
    /// Read on.
    Read,
    /// Wait so many units of time, at least 1 and at most 16, and tell `Waited`. The owner decides
    /// how long a unit is.
    Wait { units: u32 },
    /// Kill the child, and tell `Exited` once it ended.
    Kill,
    /// The end: the child finished, or a stop was asked for.
    Finished,
    /// The end: the child died so many times in a row.
    GivenUp { deaths: u32 },
    /// Nothing: the event means nothing in this state.
    Nothing,
}

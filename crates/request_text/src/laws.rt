//! A law of the lines of requests. The function has no body: its contract is the law.

ghost use Rattle.request_text.specs.Asked.{OneAnswer};

/// A line has one answer, unless there was no memory.
pub fn one_answer()
    ensures { OneAnswer }
{}

//! Laws of the texts of sessions. The functions have no body: the contract of each is a law.
#![tactic(auto)]

ghost use Rattle.session_laws.specs.Laws.{
  WrittenIsTranscript,
  WrittenHasLengths,
  LooksEndRight,
  BodyIsReceived,
  ReadIsReceived,
};
ghost use Rattle.session_laws.specs.Chains.{ResumptionHeard, NeverOlderHeard, CursorsAreTaken};

use reply_laws::reads_front;
use resume_laws::{never_older, resumption};
use step_cursor::printed_is_read;

/// What a session has written is its transcript, or a front of it.
pub fn written_is_transcript()
    ensures { WrittenIsTranscript }
{}

/// The lengths of a session don't fall, and begin right.
pub fn written_has_lengths()
    ensures { WrittenHasLengths }
{}

/// A session ends where no steps lead on.
pub fn looks_end_right()
    ensures { LooksEndRight }
{}

/// The lines of a session are those of the law of resumption.
pub fn body_is_received()
    ensures { BodyIsReceived }
{}

/// Whole lines that a client reads are those of the law of resumption.
pub fn read_is_received()
    ensures { ReadIsReceived }
{
    reads_front();
}

/// What a client makes of the lines that it reads over a chain of sessions.
pub fn resumption_heard()
    ensures { ResumptionHeard }
{
    read_is_received();
    reads_front();
    resumption();
}

/// No client is ever told of an older history than its lines told before.
pub fn never_older_heard()
    ensures { NeverOlderHeard }
{
    read_is_received();
    reads_front();
    never_older();
}

/// A cursor that stands in the text of a session of this run is never refused.
pub fn cursors_are_taken()
    ensures { CursorsAreTaken }
{
    reads_front();
    printed_is_read();
}

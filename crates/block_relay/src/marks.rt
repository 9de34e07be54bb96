//! What a relay took, one thing after another.

ghost use Rattle.std.specs.Prelude.{◌≡◌, ◌<◌, ◌≤◌, ◌+◌, ◌++◌, replicate, vec_len, vec_capacity};
ghost use Rattle.std.specs.Option.{option_or};
ghost use Rattle.block_relay.specs.Chronicle.{kind_mark};

use block_record::Kind;

/// One thing that a relay took. The slips of the blocks stand elsewhere, in the same order.
#[derive(Clone, Copy, PartialEq, Eq, Debug)]
pub enum Mark {
    /// The kind of the nodes.
    Kind,
    /// The next block of the history.
    Admitted,
    /// The next block that was answered `Waiting`.
    Waited,
    /// The block at this place is stored.
    Stored(usize),
    /// The relay is closed.
    Closed,
}

/// Keeps the kind that a root brings.
pub fn keep_root_kind(kept: &mut Option<Kind>, marks: &mut Vec<Mark>, root: Option<Kind>)
    requires { vec_len marks.old < vec_capacity marks.old }
    ensures kept { kept.new ≡ option_or root kept.old }
    ensures items { marks.new.items ≡ marks.old.items ++ kind_mark root }
    ensures len { vec_len marks.new ≤ vec_len marks.old + 1 }
    ensures capacity { vec_capacity marks.new ≡ vec_capacity marks.old }
{
    if let Some(kind) = root {
        *kept = Some(kind);
        marks.push_reserved(Mark::Kind);
    }
}

/// Marks so many blocks as admitted.
pub fn mark_admitted(marks: &mut Vec<Mark>, count: u64)
    requires { vec_len marks.old + count ≤ vec_capacity marks.old }
    ensures items { marks.new.items ≡ marks.old.items ++ replicate count Mark.Admitted }
    ensures len { vec_len marks.new ≡ vec_len marks.old + count }
    ensures capacity { vec_capacity marks.new ≡ vec_capacity marks.old }
{
    for _ in 0..count {
        marks.push_reserved(Mark::Admitted);
    }
}

//! The members of a request's line.

ghost use Rattle.std.specs.Prelude.{◌≡◌, ◌++◌, OnOk, OnErr};
ghost use Rattle.request_text.specs.Members.{member_seen, members_seen};

use std::alloc::AllocError;
use text_parts::{Part, push_parts};

/// A member: what stands before its name, the name with its colon, the value, and what stands
/// after.
#[derive(Clone, Copy)]
pub struct Member<'a> {
    pub before: &'a [u8],
    pub name: &'a [u8],
    pub value: Part<'a>,
    pub after: &'a [u8],
}

/// Appends the members, one after another. Without memory the line stays as it is.
pub fn push_members(members: &[Member<'_>], line: &mut Vec<u8>) -> Result<(), AllocError>
    ensures ok { OnOk result (line.new.items ≡ line.old.items ++ members_seen members.now) }
    ensures err { OnErr result (line.new.items ≡ line.old.items) }
{
    let kept = line.len();
    for member in members {
        if push_member(*member, line).is_err() {
            line.truncate(kept);
            return Err(AllocError);
        }
    }
    Ok(())
}

fn push_member(member: Member<'_>, line: &mut Vec<u8>) -> Result<(), AllocError>
    ensures ok { OnOk result (line.new.items ≡ line.old.items ++ member_seen member.entry) }
    ensures err { OnErr result (line.new.items ≡ line.old.items) }
{
    let parts = [
        Part::Text(member.before),
        Part::Text(member.name),
        member.value,
        Part::Text(member.after),
    ];
    push_parts(parts.as_slice(), line)
}

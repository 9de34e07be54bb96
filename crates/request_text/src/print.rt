//! The line of a request.

ghost use Rattle.std.specs.Prelude.{◌≡◌, ◌++◌, ◌&&◌, [], true, codes, Some, OnOk, OnErr};
ghost use Rattle.std.specs.Fmt.{decimal};
ghost use Rattle.std.specs.Option.{option_map};
ghost use Rattle.text_parts.specs.Parts.{part_text};
ghost use Rattle.request_text.specs.Members.{member_seen};
ghost use Rattle.request_text.specs.RequestLine.{closing as closing_text, member_text, opener as opener_text, quoted, truth, request_line};

use crate::members::{Member, push_members};
use std::alloc::AllocError;
use text_parts::Part;

/// Appends the line of a request, with a member for each part that is given. Without memory `out`
/// stays as it is.
pub fn print_request(
    cursor: Option<&str>,
    final_only: Option<bool>,
    start: Option<u64>,
    stop: Option<u64>,
    out: &mut Vec<u8>,
) -> Result<(), AllocError>
    ensures ok { OnOk result (out.new.items ≡ out.old.items
        ++ request_line (option_map (λ text. text.now) cursor.entry) final_only start stop) }
    ensures err { OnErr result (out.new.items ≡ out.old.items) }
{
    let no_cursor = cursor.is_none();
    let no_final = final_only.is_none();
    let no_start = start.is_none();
    let no_stop = stop.is_none();
    let none_of_two = both(no_cursor, no_final);
    let none_of_three = both(none_of_two, no_start);
    let none_of_four = both(none_of_three, no_stop);
    let members = [
        text_member(cursor),
        truth_member(no_cursor, final_only),
        number_member(none_of_two, b"\"start_block_num\":", start),
        number_member(none_of_three, b"\"stop_block_num\":", stop),
        closing(none_of_four),
    ];
    push_members(members.as_slice(), out)?;
    Ok(())
}

fn both(first: bool, second: bool) -> bool
    ensures { result ≡ (first && second) }
{
    first && second
}

/// A member that is not given.
fn absent() -> Member<'static>
    ensures { member_seen result ≡ [] }
{
    Member {
        before: b"",
        name: b"",
        value: Part::Text(b""),
        after: b"",
    }
}

fn opener(is_first: bool) -> &'static [u8]
    ensures { result.now ≡ opener_text is_first }
{
    if is_first { b"{" } else { b"," }
}

fn text_member(cursor: Option<&str>) -> Member<'_>
    ensures { member_seen result ≡ member_text true (codes "\"cursor\":")
        (option_map quoted (option_map (λ text. text.now) cursor.entry)) }
{
    match cursor {
        Some(text) => Member {
            before: b"{",
            name: b"\"cursor\":\"",
            value: Part::Escaped(text.as_bytes()),
            after: b"\"",
        },
        None => absent(),
    }
}

fn truth_member(is_first: bool, value: Option<bool>) -> Member<'static>
    ensures { member_seen result ≡ member_text is_first (codes "\"final_blocks_only\":")
        (option_map truth value) }
{
    match value {
        Some(true) => member(is_first, b"\"final_blocks_only\":", Part::Text(b"true")),
        Some(false) => member(is_first, b"\"final_blocks_only\":", Part::Text(b"false")),
        None => absent(),
    }
}

fn number_member(is_first: bool, name: &'static [u8], value: Option<u64>) -> Member<'static>
    ensures { member_seen result ≡ member_text is_first name.entry.now (option_map decimal value) }
{
    match value {
        Some(number) => member(is_first, name, Part::Number(number)),
        None => absent(),
    }
}

fn member(is_first: bool, name: &'static [u8], value: Part<'static>) -> Member<'static>
    ensures { member_seen result ≡ member_text is_first name.entry.now
        (Some (part_text value.entry)) }
{
    Member {
        before: opener(is_first),
        name,
        value,
        after: b"",
    }
}

/// The end of the line.
fn closing(is_first: bool) -> Member<'static>
    ensures { member_seen result ≡ closing_text is_first }
{
    Member {
        before: b"",
        name: b"",
        value: Part::Text(end(is_first)),
        after: b"",
    }
}

fn end(is_first: bool) -> &'static [u8]
    ensures { result.now ≡ closing_text is_first }
{
    if is_first { b"{}\n" } else { b"}\n" }
}

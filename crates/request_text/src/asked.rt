//! What a line asks for, member by member.

ghost use Rattle.std.specs.Prelude.{◌≡◌, false, [], codes, option_map, string_bytes};
ghost use Rattle.std.specs.Option.{ok_or};
ghost use Rattle.block_record.specs.Words.{result_map};
ghost use Rattle.serde_json.specs.Find.{get, as_bool, as_str};
ghost use Rattle.serde_json.specs.View.{view, members_view};
ghost use Rattle.request_text.specs.Asked.{asked_of, asked_seen, has_extra as has_extra_of, is_known as is_known_of, members_asked as members_asked_of, value_or, whole_number};

use reply_text::RequestField;
use serde_json::{Map, Value};

/// What a line asks for. A stop of 0 is none, and so is an empty cursor.
#[derive(Clone, Copy)]
pub struct AskedView<'a> {
    pub start: u64,
    pub stop: u64,
    pub final_only: bool,
    pub cursor: &'a str,
}

/// What a value asks for, or its first bad part.
pub fn asked(value: &Value) -> Result<AskedView<'_>, RequestField>
    ensures { result_map asked_seen result ≡ asked_of (view value.now) }
{
    let Some(members) = value.as_object() else {
        return Err(RequestField::Shape);
    };
    if has_extra(members) {
        return Err(RequestField::Extra);
    }
    members_asked(value)
}

fn has_extra(members: &Map<String, Value>) -> bool
    ensures { result ≡ has_extra_of (members_view members.now.entries) }
{
    for (name, _) in members.iter() {
        if !is_known(name.as_bytes()) {
            return true;
        }
    }
    false
}

fn is_known(name: &[u8]) -> bool
    ensures { result ≡ is_known_of name.now }
{
    name == b"start_block_num".as_slice()
        || name == b"stop_block_num".as_slice()
        || name == b"final_blocks_only".as_slice()
        || name == b"cursor".as_slice()
}

fn members_asked(value: &Value) -> Result<AskedView<'_>, RequestField>
    ensures { result_map asked_seen result ≡ members_asked_of (view value.now) }
{
    let start = number_in(value, "start_block_num", RequestField::Start)?;
    let stop = number_in(value, "stop_block_num", RequestField::Stop)?;
    let final_only = truth_in(value, "final_blocks_only", RequestField::FinalOnly)?;
    let cursor = text_in(value, "cursor", RequestField::Cursor)?;
    Ok(AskedView {
        start,
        stop,
        final_only,
        cursor,
    })
}

fn number_in(value: &Value, name: &str, field: RequestField) -> Result<u64, RequestField>
    ensures { result ≡ ok_or (value_or 0 whole_number (get name.now (view value.now))) field }
{
    match value.get(name) {
        Some(number) => number.as_u64().ok_or(field),
        None => Ok(0),
    }
}

fn truth_in(value: &Value, name: &str, field: RequestField) -> Result<bool, RequestField>
    ensures { result ≡ ok_or (value_or false as_bool (get name.now (view value.now))) field }
{
    match value.get(name) {
        Some(truth) => truth.as_bool().ok_or(field),
        None => Ok(false),
    }
}

fn text_in<'a>(value: &'a Value, name: &str, field: RequestField) -> Result<&'a str, RequestField>
    ensures { result_map (λ t. t.now) result
        ≡ ok_or (value_or [] as_str (get name.now (view value.now))) field }
{
    match value.get(name) {
        Some(text) => text.as_str().ok_or(field),
        None => Ok(""),
    }
}

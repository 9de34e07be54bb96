//! A request from its line.

ghost use Rattle.std.specs.Prelude.{◌≡◌, IfOk, IfErr};
ghost use Rattle.serde_json.specs.View.{view};
ghost use Rattle.request_text.specs.Asked.{asked_seen, IsAnswer, IsCursorOf, IsNoCursor, IsNoRequest, IsNoValue, IsRequestOf, IsTextOf, mode_of as mode_asked, stop_of as stop_asked};

use crate::asked::{AskedView, asked};
use crate::fault::RequestFault;
use chain_model::Mode;
use reply_text::RequestField;
use serde_json::Value;
use std::alloc::Global;
use step_cursor::{Cursor, CursorFault, Request, parse_cursor};

/// The request that a line is, without its LF.
pub fn parse_request(alloc: Global, line: &[u8]) -> Result<Request, RequestFault>
    ensures { IsAnswer line.now result }
{
    let value = read_value(alloc, line)?;
    match asked(&value) {
        Ok(parts) => request_of(alloc, parts),
        Err(field) => Err(RequestFault::BadRequest { field }),
    }
}

fn read_value(alloc: Global, line: &[u8]) -> Result<Value, RequestFault>
    ensures ok { IfOk result (λ value. IsTextOf line.now (view value)) }
    ensures err { IfErr result (λ fault. IsNoValue line.now fault) }
{
    match Value::from_slice(alloc, line) {
        Ok(value) => Ok(value),
        Err(error) => {
            if error.is_memory() {
                Err(RequestFault::Mem)
            } else {
                Err(RequestFault::BadRequest {
                    field: RequestField::Shape,
                })
            }
        }
    }
}

fn request_of(alloc: Global, parts: AskedView<'_>) -> Result<Request, RequestFault>
    ensures ok { IfOk result (λ request. IsRequestOf (asked_seen parts.entry) request) }
    ensures err { IfErr result (λ fault. IsNoRequest (asked_seen parts.entry) fault) }
{
    match cursor_of(alloc, parts.cursor) {
        Ok(cursor) => Ok(Request {
            start: parts.start,
            stop: stop_of(parts.stop),
            mode: mode_of(parts.final_only),
            cursor,
        }),
        Err(CursorFault::Malformed { at }) => Err(RequestFault::Malformed { at }),
        Err(CursorFault::Mem) => Err(RequestFault::Mem),
    }
}

fn stop_of(stop: u64) -> Option<u64>
    ensures { result ≡ stop_asked stop }
{
    if stop == 0 { None } else { Some(stop) }
}

fn mode_of(final_only: bool) -> Mode
    ensures { result ≡ mode_asked final_only }
{
    if final_only { Mode::Final } else { Mode::Live }
}

/// The cursor that a text is. The empty text is none.
fn cursor_of(alloc: Global, text: &str) -> Result<Option<Cursor>, CursorFault>
    ensures ok { IfOk result (λ cursor. IsCursorOf text.now cursor) }
    ensures err { IfErr result (λ fault. IsNoCursor text.now fault) }
{
    if text.is_empty() {
        return Ok(None);
    }
    let cursor = parse_cursor(alloc, text.as_bytes())?;
    Ok(Some(cursor))
}

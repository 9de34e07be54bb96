//! What a request line opens.

ghost use Rattle.std.specs.Prelude.{◌≡◌, IfOk, IfErr};
ghost use Rattle.script_clients.specs.Opening.{IsNoRequest, IsRequest, fault_of};

use reply_text::ErrorLine;
use request_text::{RequestFault, parse_request};
use std::alloc::Global;
use step_cursor::Request;

/// Why a request line opens no session.
#[derive(Drop)]
pub enum OpenFault {
    /// It is refused with this line.
    Refused(ErrorLine),
    /// There was no memory.
    Mem,
}

/// The request that a line is, of at most `limit` bytes.
pub fn read_request(alloc: Global, limit: u64, line: &[u8]) -> Result<Request, OpenFault>
    ensures ok { IfOk result (λ request. IsRequest limit line.now request) }
    ensures err { IfErr result (λ fault. IsNoRequest limit line.now fault) }
{
    if line.len() as u64 > limit {
        return Err(OpenFault::Refused(ErrorLine::TooLong));
    }
    match parse_request(alloc, line) {
        Ok(request) => Ok(request),
        Err(fault) => Err(open_fault(fault)),
    }
}

/// How a client is told that its line is no request.
fn open_fault(fault: RequestFault) -> OpenFault
    ensures { result ≡ fault_of fault }
{
    match fault {
        RequestFault::BadRequest { field } => OpenFault::Refused(ErrorLine::BadRequest { field }),
        RequestFault::Malformed { at } => OpenFault::Refused(ErrorLine::Malformed { at }),
        RequestFault::Mem => OpenFault::Mem,
    }
}

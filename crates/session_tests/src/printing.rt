//! Lines that are appended to a text, with and without memory.

use block_record::{Block, TypeName};
use chain_model::{Place, Step};
use history_tests::blocks::{A1, whole_block};
use reply_text::{ErrorLine, print_end, print_error, print_head, print_open, print_step};
use request_text::print_request;
use std::alloc::{AllocError, Global};
use std::process::Abort;
use std::test::Fail;
use step_cursor::Tail;

/// Each line that there is a call for.
#[derive(Clone, Copy)]
enum Line {
    Open,
    Step,
    Head,
    End,
    Error,
    Request,
}

const LINES: [Line; 6] = [
    Line::Open,
    Line::Step,
    Line::Head,
    Line::End,
    Line::Error,
    Line::Request,
];

/// What the lines are about.
#[derive(Drop)]
struct About {
    block_type: TypeName,
    block: Block,
}

fn new_about(alloc: Global) -> Result<Option<About>, AllocError> {
    let block_type = TypeName::new(alloc, b"test.Block")?;
    let block = whole_block(alloc, A1)?;
    match (block_type, block) {
        (Some(block_type), Some(block)) => Ok(Some(About { block_type, block })),
        _ => Ok(None),
    }
}

/// Appends a line.
fn print(line: Line, about: &About, out: &mut Vec<u8>) -> Result<(), AllocError> {
    let place = Place {
        end: None,
        lib: None,
    };
    let tail = Tail { run: 700, seen: 1 };
    match line {
        Line::Open => print_open(&about.block_type, 700, &place, out),
        Line::Step => print_step(Step::New, &about.block, &place, &tail, out),
        Line::Head => print_head(None, 1, out),
        Line::End => print_end(true, out),
        Line::Error => print_error(&ErrorLine::TooLong, out),
        Line::Request => print_request(Some("YzE"), Some(true), Some(0), Some(1), out),
    }
}

/// Whether a text of one byte, which has no room for more, begins with it after a line was appended,
/// and is as it was where there was no memory for the line.
fn keeps_front(alloc: Global, line: Line, about: &About) -> Result<bool, AllocError> {
    let mut out = Vec::with_capacity(alloc, 1)?;
    out.push(b'x')?;
    match print(line, about, &mut out) {
        Ok(()) => Ok(out.starts_with(b"x{")),
        Err(_) => Ok(out.as_slice() == b"x".as_slice()),
    }
}

#[test]
fn what_stood_there_stays(rt: HostRuntime) -> Result<(), Fail> {
    let alloc = rt.alloc();
    let Some(about) = new_about(alloc)? else {
        assert!(rt; false);
        return Ok(());
    };
    for line in LINES {
        let keeps = keeps_front(alloc, line, &about)?;
        assert!(rt; keeps);
    }
    Ok(())
}

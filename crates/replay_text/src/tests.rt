//! Lines of a replay, written.

use crate::{
    push_bad_line, push_kind_fault, push_load_fault, push_loaded, push_merged, push_not_yet,
    push_over, push_replies, push_taken,
};
use block_intake::Offered;
use block_record::{Id, TypeName};
use block_relay::KindFault;
use bundle_merger::Merged;
use fire_lines::LineFault;
use shelf_check::LoadFault;
use shelf_load::Loaded;
use std::alloc::Global;
use std::test::Fail;

const REPLIES: &[u8] =
    b"{\"open\":\"test.Block\",\"run\":700,\"end\":null,\"lib\":null}\n{\"head\":{\"num\":1,\"id\":\"a1\"},\"seen\":1}\n";

const TEXT: &str = "load 0 0 0 0
r admitted 0 1
c {\"open\":\"test.Block\",\"run\":700,\"end\":null,\"lib\":null}
c {\"head\":{\"num\":1,\"id\":\"a1\"},\"seen\":1}
c notyet 1
merge 1 99
";

#[test]
fn a_replay_is_written(rt: HostRuntime) -> Result<(), Fail> {
    let alloc = rt.alloc();
    let mut out = Vec::new(alloc);
    let loaded = Loaded {
        admitted: 0,
        waiting: 0,
        passed: 0,
        conflicts: 0,
    };
    push_loaded(loaded, &mut out)?;
    push_first(alloc, &mut out)?;
    push_replies(b"c", REPLIES, &mut out)?;
    push_not_yet(b"c", 1, &mut out)?;
    let merged = Merged {
        bundles: 1,
        stored: 99,
    };
    push_merged(merged, &mut out)?;
    assert!(rt; out.as_slice() == TEXT.as_bytes());
    Ok(())
}

/// The line of a first block of the reader `r`.
fn push_first(alloc: Global, out: &mut Vec<u8>) -> Result<(), Fail> {
    let admitted = Offered::Admitted {
        from: 0,
        count: 1,
        dropped: Vec::new(alloc),
    };
    if let Some(id) = Id::new(alloc, b"a1")? {
        push_taken(b"r", 1, &id, &Ok(admitted), out)?;
    }
    Ok(())
}

const REFUSALS: &str = "load fault history full 2 1
r fault line 2: bad field 1
r fault kind clash a b
r over
";

#[test]
fn refusals_are_written(rt: HostRuntime) -> Result<(), Fail> {
    let alloc = rt.alloc();
    let mut out = Vec::new(alloc);
    push_load_fault(&LoadFault::HistoryFull { len: 2, need: 1 }, &mut out)?;
    push_bad_line(b"r", LineFault::BadField { line: 2, field: 1 }, &mut out)?;
    push_clash(alloc, &mut out)?;
    push_over(b"r", &mut out)?;
    assert!(rt; out.as_slice() == REFUSALS.as_bytes());
    Ok(())
}

/// The line of two types of the reader `r`.
fn push_clash(alloc: Global, out: &mut Vec<u8>) -> Result<(), Fail> {
    let held = TypeName::new(alloc, b"a")?;
    let offered = TypeName::new(alloc, b"b")?;
    if let (Some(held), Some(offered)) = (held, offered) {
        push_kind_fault(b"r", &KindFault::KindClash { held, offered }, out)?;
    }
    Ok(())
}

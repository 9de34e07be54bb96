//! What readers are answered, appended to a text. Without memory the text stays as it is.

ghost use Rattle.std.specs.Prelude.{◌≡◌, ◌++◌, OnOk, OnErr};
ghost use Rattle.replay_text.specs.Lines.{bad_line, block_line, admitted_line, dropped_line, dropped_lines, kind_fault_line, offer_fault_line, offered_lines, refused_line, store_fault_line, taken_lines};
ghost use Rattle.replay_text.specs.Texts.{conflict_parts, name_clash_parts};

use crate::parts::{push_block, push_number, push_texts, push_two};
use crate::words::{fault_field, fault_place, fault_words, kind_word};
use block_intake::{Conflict, OfferFault, Offered};
use block_reader::TakeFault;
use block_record::{Id, Slip};
use block_relay::KindFault;
use fire_lines::LineFault;
use one_block::StoreFault;
use std::alloc::AllocError;
use text_parts::{Part, keep_front, push_parts};

/// Appends the lines of what a block of a reader is answered. A refusal of the shelf, and want of
/// memory, have no line.
pub fn push_taken(
    reader: &[u8],
    num: u64,
    id: &Id,
    answer: &Result<Offered, TakeFault>,
    out: &mut Vec<u8>,
) -> Result<(), AllocError>
    ensures ok { OnOk result
        (out.new.items ≡ out.old.items ++ taken_lines reader.now num id.now answer.now) }
    ensures err { OnErr result (out.new.items ≡ out.old.items) }
{
    match answer {
        Ok(offered) => push_offered(reader, num, id, offered, out),
        Err(TakeFault::Offer(fault)) => push_offer_fault(reader, fault, out),
        Err(TakeFault::Store(fault)) => push_store_fault(reader, fault, out),
    }
}

/// Appends the lines of what became of an offered block.
fn push_offered(
    reader: &[u8],
    num: u64,
    id: &Id,
    offered: &Offered,
    out: &mut Vec<u8>,
) -> Result<(), AllocError>
    ensures ok { OnOk result
        (out.new.items ≡ out.old.items ++ offered_lines reader.now num id.now offered.now) }
    ensures err { OnErr result (out.new.items ≡ out.old.items) }
{
    match offered {
        Offered::Admitted {
            from,
            count,
            dropped,
        } => push_admitted(reader, *from, *count, dropped, out),
        Offered::Duplicate => push_block(reader, b" duplicate ", num, id, out),
        Offered::Waiting => push_block(reader, b" waiting ", num, id, out),
        Offered::Early => push_block(reader, b" early ", num, id, out),
        Offered::Stale => push_block(reader, b" stale ", num, id, out),
    }
}

/// Appends the lines of blocks that came into the history, and of those that were dropped.
fn push_admitted(
    reader: &[u8],
    from: u64,
    count: u64,
    dropped: &Vec<Conflict>,
    out: &mut Vec<u8>,
) -> Result<(), AllocError>
    ensures ok { OnOk result (out.new.items ≡ out.old.items
        ++ (admitted_line reader.now from count ++ dropped_lines reader.now dropped.now.items)) }
    ensures err { OnErr result (out.new.items ≡ out.old.items) }
{
    let kept = out.len();
    push_two(reader, b" admitted ", from, count, out)?;
    let pushed = push_dropped(reader, dropped, out);
    keep_front(pushed, kept, out)
}

/// Appends the lines of waiting blocks that were dropped.
fn push_dropped(reader: &[u8], dropped: &[Conflict], out: &mut Vec<u8>) -> Result<(), AllocError>
    ensures ok { OnOk result
        (out.new.items ≡ out.old.items ++ dropped_lines reader.now dropped.now) }
    ensures err { OnErr result (out.new.items ≡ out.old.items) }
{
    let kept = out.len();
    for conflict in dropped {
        if push_one_dropped(reader, conflict, out).is_err() {
            out.truncate(kept);
            return Err(AllocError);
        }
    }
    Ok(())
}

/// Appends the line of a waiting block that was dropped.
fn push_one_dropped<'a>(
    reader: &'a [u8],
    conflict: &'a Conflict,
    out: &mut Vec<u8>,
) -> Result<(), AllocError>
    ensures ok { OnOk result
        (out.new.items ≡ out.old.items ++ dropped_line reader.now conflict.now) }
    ensures err { OnErr result (out.new.items ≡ out.old.items) }
{
    let parts = [
        Part::Text(reader),
        Part::Text(b" dropped "),
        Part::Text(kind_word(conflict.kind)),
        Part::Text(b" "),
        Part::Number(conflict.held.num),
        Part::Text(b" "),
        Part::Text(conflict.held.id.as_bytes()),
        Part::Text(b" "),
        Part::Number(conflict.offered.num),
        Part::Text(b" "),
        Part::Text(conflict.offered.id.as_bytes()),
        Part::Text(b"\n"),
    ];
    push_parts(parts.as_slice(), out)
}

/// Appends the line of a refused offer. Want of memory has none.
fn push_offer_fault(reader: &[u8], fault: &OfferFault, out: &mut Vec<u8>) -> Result<(), AllocError>
    ensures ok { OnOk result
        (out.new.items ≡ out.old.items ++ offer_fault_line reader.now fault.now) }
    ensures err { OnErr result (out.new.items ≡ out.old.items) }
{
    match fault {
        OfferFault::Closed { len } => push_number(reader, b" fault closed ", *len, out),
        OfferFault::Conflict(conflict) => push_conflict(reader, conflict, out),
        OfferFault::HistoryFull { len, need } => {
            push_two(reader, b" fault history full ", *len, *need, out)
        }
        OfferFault::WaitFull { blocks, bytes } => {
            push_two(reader, b" fault wait full ", *blocks, *bytes, out)
        }
        OfferFault::Mem => Ok(()),
    }
}

/// Appends the line of a block that contradicts another.
fn push_conflict<'a>(
    reader: &'a [u8],
    conflict: &'a Conflict,
    out: &mut Vec<u8>,
) -> Result<(), AllocError>
    ensures ok { OnOk result
        (out.new.items ≡ out.old.items ++ refused_line reader.now (conflict_parts conflict.now)) }
    ensures err { OnErr result (out.new.items ≡ out.old.items) }
{
    let parts = [
        Part::Text(reader),
        Part::Text(b" fault conflict "),
        Part::Text(kind_word(conflict.kind)),
        Part::Text(b" held "),
        Part::Number(conflict.held.num),
        Part::Text(b" "),
        Part::Text(conflict.held.id.as_bytes()),
        Part::Text(b" offered "),
        Part::Number(conflict.offered.num),
        Part::Text(b" "),
        Part::Text(conflict.offered.id.as_bytes()),
        Part::Text(b"\n"),
    ];
    push_parts(parts.as_slice(), out)
}

/// Appends the line of a file that was not put. A refusal of the shelf, and want of memory, have
/// none.
fn push_store_fault(reader: &[u8], fault: &StoreFault, out: &mut Vec<u8>) -> Result<(), AllocError>
    ensures ok { OnOk result
        (out.new.items ≡ out.old.items ++ store_fault_line reader.now fault.now) }
    ensures err { OnErr result (out.new.items ≡ out.old.items) }
{
    match fault {
        StoreFault::NameClash { held, offered } => push_name_clash(reader, held, offered, out),
        StoreFault::ShelfFault
        | StoreFault::ShelfBad { .. }
        | StoreFault::Missing { .. }
        | StoreFault::StoredOther { .. }
        | StoreFault::Mem => Ok(()),
    }
}

/// Appends the line of two blocks whose files have one name.
fn push_name_clash<'a>(
    reader: &'a [u8],
    held: &'a Slip,
    offered: &'a Slip,
    out: &mut Vec<u8>,
) -> Result<(), AllocError>
    ensures ok { OnOk result (out.new.items ≡ out.old.items
        ++ refused_line reader.now (name_clash_parts held.now offered.now)) }
    ensures err { OnErr result (out.new.items ≡ out.old.items) }
{
    let parts = [
        Part::Text(reader),
        Part::Text(b" fault name clash "),
        Part::Number(held.num),
        Part::Text(b" "),
        Part::Text(held.id.as_bytes()),
        Part::Text(b" "),
        Part::Number(offered.num),
        Part::Text(b" "),
        Part::Text(offered.id.as_bytes()),
        Part::Text(b"\n"),
    ];
    push_parts(parts.as_slice(), out)?;
    Ok(())
}

/// Appends the line of a bad line of a reader's node.
pub fn push_bad_line(reader: &[u8], fault: LineFault, out: &mut Vec<u8>) -> Result<(), AllocError>
    ensures ok { OnOk result (out.new.items ≡ out.old.items ++ bad_line reader.now fault) }
    ensures err { OnErr result (out.new.items ≡ out.old.items) }
{
    let parts = [
        Part::Text(reader),
        Part::Text(b" fault line "),
        Part::Number(fault_place(fault)),
        Part::Text(b": "),
        Part::Text(fault_words(fault)),
        fault_field(fault),
        Part::Text(b"\n"),
    ];
    push_parts(parts.as_slice(), out)?;
    Ok(())
}

/// Appends the line of a reader whose node has another type of blocks. Want of memory has none.
pub fn push_kind_fault(
    reader: &[u8],
    fault: &KindFault,
    out: &mut Vec<u8>,
) -> Result<(), AllocError>
    ensures ok { OnOk result
        (out.new.items ≡ out.old.items ++ kind_fault_line reader.now fault.now) }
    ensures err { OnErr result (out.new.items ≡ out.old.items) }
{
    match fault {
        KindFault::KindClash { held, offered } => push_texts(
            reader,
            b" fault kind clash ",
            held.as_bytes(),
            offered.as_bytes(),
            out,
        ),
        KindFault::Mem => Ok(()),
    }
}

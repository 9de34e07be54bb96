//! The lines that a session sends together. At an error the text is as it was.

ghost use Rattle.std.specs.Prelude.{◌≡◌, ◌++◌, ◌∷◌, [], ℕ, ◌==◌, List, OnOk, OnErr, if◌then◌else◌};
ghost use Rattle.reply_text.specs.Lines.{head_line};
ghost use Rattle.reply_text.specs.Replies.{reply_text, StepOf, Head};
ghost use Rattle.std.specs.List.{AllByRecursion};
ghost use Rattle.reply_text.specs.Values.{IsOpenValue, IsValue};
ghost use Rattle.session_model.specs.Progress.{opening_reply, idle_head};

use crate::know::{know_ref, know_step};
use block_record::TypeName;
use chain_model::Place;
use join_source::StepOut;
use reply_text::{print_head, print_open, print_step};
use std::alloc::AllocError;
use step_cursor::Tail;
use text_parts::keep_front;

/// Appends the head line after a batch that reached this place.
fn print_head_at(place: &Place, seen: u64, out: &mut Vec<u8>) -> Result<(), AllocError>
    ensures ok { OnOk result (out.new.items ≡ out.old.items ++ head_line place.now.end seen) }
    ensures err { OnErr result (out.new.items ≡ out.old.items) }
{
    print_head(place.end.as_ref(), seen, out)
}

/// Appends the head line of a batch without steps.
pub fn print_idle_head(
    total: u64,
    seen: u64,
    place: &Place,
    out: &mut Vec<u8>,
) -> Result<(), AllocError>
    ensures ok { OnOk result
        (out.new.items ≡ out.old.items ++ reply_text (idle_head total seen place.now)) }
    ensures values { AllByRecursion IsValue (idle_head total seen place.now) }
    ensures err { OnErr result (out.new.items ≡ out.old.items) }
{
    know_ref(&place.end);
    if total == 0 {
        print_head(place.end.as_ref(), seen, out)
    } else {
        Ok(())
    }
}

/// Appends the open line, and the head line of a batch without steps.
pub fn print_first(
    block_type: &TypeName,
    run: u64,
    total: u64,
    seen: u64,
    place: &Place,
    out: &mut Vec<u8>,
) -> Result<(), AllocError>
    ensures ok { OnOk result (out.new.items ≡ out.old.items
        ++ reply_text (opening_reply block_type.now run place.now []
        ++ idle_head total seen place.now)) }
    ensures values { OnOk result (AllByRecursion IsValue
        (opening_reply block_type.now run place.now [] ++ idle_head total seen place.now)) }
    ensures err { OnErr result (out.new.items ≡ out.old.items) }
{
    know_open(block_type, run, place);
    let kept = out.len();
    print_open(block_type, run, place, out)?;
    let printed = print_idle_head(total, seen, place, out);
    keep_front(printed, kept, out)
}

/// Appends the line of a step.
pub fn print_one(step: &StepOut, tail: Tail, out: &mut Vec<u8>) -> Result<(), AllocError>
    ensures ok { OnOk result (out.new.items ≡ out.old.items
        ++ reply_text (StepOf step.now.step step.now.block.value step.now.place tail ∷ [])) }
    ensures value { IsValue (StepOf step.now.step step.now.block.value step.now.place tail) }
    ensures err { OnErr result (out.new.items ≡ out.old.items) }
{
    know_step(step, tail);
    print_step(step.step, &step.block, &step.place, &tail, out)?;
    Ok(())
}

/// Appends the line of the last step of a batch, and the head line.
pub fn print_last(step: &StepOut, tail: Tail, out: &mut Vec<u8>) -> Result<(), AllocError>
    ensures ok { OnOk result (out.new.items ≡ out.old.items
        ++ reply_text (StepOf step.now.step step.now.block.value step.now.place tail
        ∷ Head step.now.place.end tail.seen ∷ [])) }
    ensures value { IsValue (StepOf step.now.step step.now.block.value step.now.place tail) }
    ensures head { IsValue (Head step.now.place.end tail.seen) }
    ensures err { OnErr result (out.new.items ≡ out.old.items) }
{
    know_step(step, tail);
    know_head(&step.place, tail.seen);
    let kept = out.len();
    print_one(step, tail, out)?;
    match print_head_at(&step.place, tail.seen, out) {
        Ok(()) => Ok(()),
        Err(error) => {
            out.truncate(kept);
            Err(error)
        }
    }
}

/// The first line has a type, a run and blocks.
fn know_open(block_type: &TypeName, run: u64, place: &Place)
    ensures { IsOpenValue block_type.now run place.now }
{
    let _text = block_type.as_bytes();
    know_ref(&place.end);
    know_ref(&place.lib);
}

/// A head line has a block that may be missing, and a length.
fn know_head(place: &Place, seen: u64)
    ensures { IsValue (Head place.now.end seen) }
{
    know_ref(&place.end);
}

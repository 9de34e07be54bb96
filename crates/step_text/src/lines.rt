//! The lines of steps.

ghost use Rattle.std.specs.Prelude.{◌≡◌, ◌++◌, OnOk};
ghost use Rattle.step_text.specs.StepText.{word_of, step_line};

use block_record::Id;
use chain_model::Step;
use itoa::Buffer;
use std::alloc::AllocError;

/// The word of a step.
pub fn word(step: Step) -> &'static [u8]
    ensures { result.now ≡ word_of step }
{
    match step {
        Step::New => b"new",
        Step::Undo => b"undo",
        Step::Final => b"final",
        Step::NewFinal => b"newfinal",
    }
}

/// Appends the line of a step.
pub fn push_line(step: Step, num: u64, id: &Id, text: &mut Vec<u8>) -> Result<(), AllocError>
    ensures { OnOk result (text.new.items ≡ text.old.items
        ++ step_line (record { step = step; num = num; id = id.now })) }
{
    let mut digits = Buffer::new();
    text.extend_from_slice(word(step))?;
    text.push(b' ')?;
    text.extend_from_slice(digits.format(num).as_bytes())?;
    text.push(b' ')?;
    text.extend_from_slice(id.as_bytes())?;
    text.push(b'\n')?;
    Ok(())
}

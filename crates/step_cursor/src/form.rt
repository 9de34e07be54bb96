//! The forms of a cursor's text, and the numbers of its steps.

ghost use Rattle.std.specs.Prelude.{◌≡◌};
ghost use Rattle.std.specs.Option.{option_map};
ghost use Rattle.step_cursor.specs.CursorText.{step_number as number_as, form_for, form_word, is_at as is_block_at};
ghost use Rattle.step_cursor.specs.CursorParts.{form_named as form_by_name, step_named as step_by_name};
ghost use Rattle.step_cursor.specs.Reading.{ref_seen, word_count};

use crate::refs::RefView;
use chain_model::Step;

/// The forms of the plain text, by which block of the place is the step's block.
#[derive(Clone, Copy, PartialEq, Eq, Debug)]
pub enum Form {
    /// `c1`: the end is the block, and the lib is written.
    AtEnd,
    /// `c2`: the lib is the block, and the end is written.
    AtLib,
    /// `c3`: neither is, and both are written.
    Apart,
}

impl Form {
    /// The first form that fits a block with this end and lib.
    pub fn of(block: RefView<'_>, end: Option<RefView<'_>>, lib: Option<RefView<'_>>) -> Form
        ensures { result ≡ form_for (ref_seen block.entry)
            (option_map ref_seen end.entry) (option_map ref_seen lib.entry) }
    {
        if is_at(end, block) {
            Form::AtEnd
        } else if is_at(lib, block) {
            Form::AtLib
        } else {
            Form::Apart
        }
    }

    /// Its word.
    pub fn word(self) -> &'static [u8]
        ensures { result.now ≡ form_word self }
    {
        match self {
            Form::AtEnd => b"c1",
            Form::AtLib => b"c2",
            Form::Apart => b"c3",
        }
    }

    /// How many words a text of this form has.
    pub fn word_count(self) -> usize
        ensures { result ≡ word_count self }
    {
        match self {
            Form::AtEnd | Form::AtLib => 6,
            Form::Apart => 8,
        }
    }
}

/// Whether the block at a reference is this one.
#[tactic(auto, unfolding(block_record::specs::Ids::same_id))]
fn is_at(reference: Option<RefView<'_>>, block: RefView<'_>) -> bool
    ensures { result ≡ is_block_at (option_map ref_seen reference.entry) (ref_seen block.entry) }
{
    match reference {
        Some(r) => r.id == block.id && r.num == block.num,
        None => false,
    }
}

/// The form that a word names.
pub fn form_named(word: &[u8]) -> Option<Form>
    ensures { result ≡ form_by_name word.now }
{
    if word == b"c1".as_slice() {
        Some(Form::AtEnd)
    } else if word == b"c2".as_slice() {
        Some(Form::AtLib)
    } else if word == b"c3".as_slice() {
        Some(Form::Apart)
    } else {
        None
    }
}

/// The number of a step.
pub fn step_number(step: Step) -> u64
    ensures { result ≡ number_as step }
{
    match step {
        Step::New => 1,
        Step::Undo => 2,
        Step::Final => 16,
        Step::NewFinal => 17,
    }
}

/// The step whose number a word is.
pub fn step_named(word: &[u8]) -> Option<Step>
    ensures { result ≡ step_by_name word.now }
{
    if word == b"1".as_slice() {
        Some(Step::New)
    } else if word == b"2".as_slice() {
        Some(Step::Undo)
    } else if word == b"16".as_slice() {
        Some(Step::Final)
    } else if word == b"17".as_slice() {
        Some(Step::NewFinal)
    } else {
        None
    }
}

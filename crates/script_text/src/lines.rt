//! One line of a script.

ghost use Rattle.std.specs.Prelude.{◌≡◌};
ghost use Rattle.std.specs.Option.{option_copied};
ghost use Rattle.script_text.specs.Lines.{is_setting as is_setting_word, setting_of, word_says as word_says_as, line_says};
ghost use Rattle.script_text.specs.Reading.{Gives};

use crate::events::{event, lone_event};
use crate::faults::LineFault;
use crate::script::{Saying, Setting};
use crate::settings::limit;
use crate::words::{after_word, first_word};
use block_record::read_number;
use std::alloc::Global;

/// Whether a word is that of a setting.
fn is_setting(word: &[u8]) -> bool
    ensures { result ≡ is_setting_word word.now }
{
    word == b"first".as_slice() || word == b"run".as_slice() || word == b"limit".as_slice()
}

/// A setting by its word and what stands after it.
#[tactic(auto, unfolding(crate::specs::Lines::setting_of))]
fn setting(word: &[u8], text: &[u8]) -> Option<Setting>
    ensures { result ≡ setting_of word.now text.now }
{
    if word == b"first".as_slice() {
        Some(Setting::First(read_number(text)?))
    } else if word == b"run".as_slice() {
        Some(Setting::Run(read_number(text)?))
    } else {
        limit(text)
    }
}

/// What a word says with what stands after it.
fn word_says(alloc: Global, word: &[u8], text: Option<&[u8]>) -> Result<Saying, LineFault>
    ensures { Gives (λ saying. saying) result (word_says_as word.now (option_copied text.entry)) }
{
    let Some(text) = text else {
        let event = lone_event(word).ok_or(LineFault::Bad)?;
        return Ok(Saying::Tells(event));
    };
    if is_setting(word) {
        let setting = setting(word, text).ok_or(LineFault::Bad)?;
        return Ok(Saying::Sets(setting));
    }
    let event = event(alloc, word, text)?;
    Ok(Saying::Tells(event))
}

/// What a line without its LF says.
#[tactic(auto, unfolding(crate::specs::Lines::line_says))]
pub fn read_line(alloc: Global, line: &[u8]) -> Result<Saying, LineFault>
    ensures { Gives (λ saying. saying) result (line_says line.now) }
{
    match line {
        [] => Ok(Saying::Nothing),
        [first, ..] => {
            if *first == b'#' {
                Ok(Saying::Nothing)
            } else {
                word_says(alloc, first_word(line), after_word(line))
            }
        }
    }
}

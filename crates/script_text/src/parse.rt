//! A whole script.

ghost use Rattle.std.specs.Prelude.{◌≡◌, ◌==◌, IfOk, map};
ghost use Rattle.std.specs.List.{slice_split};
ghost use Rattle.script_text.specs.Reading.{IsDone};
ghost use Rattle.script_text.specs.Scripts.{Answers, line_after, lines_script, script_of, set_in, start, state_after, state_seen, plan_of, script_seen, told_in};

use crate::faults::{LineFault, ScriptFault};
use crate::lines::read_line;
use crate::names::{Used, use_event};
use crate::script::{Event, Saying, Script, Setting};
use crate::settings::Settings;
use std::alloc::{AllocError, Global};

/// What the lines so far say.
#[derive(Debug, Drop)]
pub struct Progress {
    settings: Settings,
    used: Vec<Used>,
    events: Vec<Event>,
}

impl Progress {
    fn new(alloc: Global) -> Progress
        ensures { state_seen result ≡ start }
    {
        Progress {
            settings: Settings::new(),
            used: Vec::new(alloc),
            events: Vec::new(alloc),
        }
    }

    /// Takes a setting, which comes before each event and at most once.
    fn set(&mut self, setting: Setting) -> Result<(), LineFault>
        ensures { IsDone result (state_seen self.new) (set_in (state_seen self.old) setting) }
    {
        if !self.events.is_empty() || self.settings.is_set(setting) {
            return Err(LineFault::Bad);
        }
        self.settings = self.settings.with(setting);
        Ok(())
    }

    /// Takes an event, whose name must fit.
    fn tell(&mut self, alloc: Global, event: Event) -> Result<(), LineFault>
        ensures { IsDone result (state_seen self.new) (told_in (state_seen self.old) event) }
    {
        use_event(alloc, &event, &mut self.used)?;
        self.events.push(event)?;
        Ok(())
    }

    /// Takes what a line says.
    fn take(&mut self, alloc: Global, saying: Saying) -> Result<(), LineFault>
        ensures { IsDone result (state_seen self.new) (state_after (state_seen self.old) saying) }
    {
        match saying {
            Saying::Nothing => Ok(()),
            Saying::Sets(setting) => self.set(setting),
            Saying::Tells(event) => self.tell(alloc, event),
        }
    }

    /// Takes a line.
    #[tactic(auto, unfolding(crate::specs::Scripts::line_after))]
    fn take_line(&mut self, alloc: Global, line: &[u8]) -> Result<(), LineFault>
        ensures { IsDone result (state_seen self.new) (line_after (state_seen self.old) line.now) }
    {
        let saying = read_line(alloc, line)?;
        self.take(alloc, saying)?;
        Ok(())
    }

    /// The script that the lines are.
    fn into_script(self) -> Script
        ensures { script_seen result ≡ plan_of (state_seen self) }
    {
        Script {
            first: self.settings.first.unwrap_or(0),
            run: self.settings.run.unwrap_or(0),
            limits: self.settings.limits(),
            events: self.events,
        }
    }
}

/// The lines of a text, without their LFs.
fn split(alloc: Global, text: &[u8]) -> Result<Vec<&[u8]>, AllocError>
    ensures { IfOk result (λ lines. map (λ line. line.now) lines.items
        ≡ slice_split (λ b. b == 10) text.now) }
{
    text.split(|b| *b == b'\n').collect(alloc)
}

/// The script that some lines are, or the number of the first bad one.
fn parse_lines(alloc: Global, lines: &[&[u8]]) -> Result<Script, ScriptFault>
    ensures { Answers result (lines_script (map (λ line. line.now) lines.now)) }
{
    let mut progress = Progress::new(alloc);
    for (index, line) in lines.iter().enumerate() {
        match progress.take_line(alloc, line) {
            Ok(()) => {}
            Err(LineFault::Bad) => {
                return Err(ScriptFault::BadScript {
                    line: index as u64 + 1,
                });
            }
            Err(LineFault::Mem) => return Err(ScriptFault::Mem),
        }
    }
    Ok(progress.into_script())
}

/// The script that a text is, or the number of its first bad line, counted from 1.
pub fn parse_script(alloc: Global, text: &[u8]) -> Result<Script, ScriptFault>
    ensures { Answers result (script_of text.now) }
{
    let lines = split(alloc, text)?;
    let script = parse_lines(alloc, lines.as_slice())?;
    Ok(script)
}

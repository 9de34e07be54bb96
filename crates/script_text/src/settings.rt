//! The settings of a script.

ghost use Rattle.std.specs.Prelude.{◌≡◌};
ghost use Rattle.script_text.specs.Settings.{at_most as at_most_as, short_limit as short_limit_as, block_limit as block_limit_as, limit_with as limit_as, limit_of, unset, is_set as is_set_as, with as with_as, limits_of};

use crate::script::Setting;
use crate::words::{count_after, first_word};
use block_relay::Limits;

// The greatest value of each limit, which it has where it isn't set.
const LINE_MAX: u64 = 67_108_864;

const REQUEST_MAX: u64 = 65_536;

const WAIT_BLOCKS_MAX: u64 = 1_024;

const WAIT_BYTES_MAX: u64 = 536_870_912;

const HISTORY_MAX: u64 = 4_194_304;

const CHUNK_MAX: u32 = 256;

const DEATHS_MAX: u32 = 5;

const HOLD_MAX: u32 = 1_000_000;

/// A value that is at most this.
fn at_most(max: u64, value: u64) -> Option<u64>
    ensures { result ≡ at_most_as max value }
{
    if value <= max { Some(value) } else { None }
}

/// The same, in 32 bits.
fn at_most_short(max: u32, value: u64) -> Option<u32>
    ensures { result ≡ at_most_as max value }
{
    if value <= u64::from(max) {
        Some(value as u32)
    } else {
        None
    }
}

fn short_limit(word: &[u8], value: u64) -> Option<Setting>
    ensures { result ≡ short_limit_as word.now value }
{
    if word == b"chunk".as_slice() {
        Some(Setting::Chunk(at_most_short(CHUNK_MAX, value)?))
    } else if word == b"deaths".as_slice() {
        Some(Setting::Deaths(at_most_short(DEATHS_MAX, value)?))
    } else if word == b"hold".as_slice() {
        Some(Setting::Hold(at_most_short(HOLD_MAX, value)?))
    } else {
        None
    }
}

fn block_limit(word: &[u8], value: u64) -> Option<Setting>
    ensures { result ≡ block_limit_as word.now value }
{
    if word == b"wait_blocks".as_slice() {
        Some(Setting::WaitBlocks(at_most(WAIT_BLOCKS_MAX, value)?))
    } else if word == b"wait_bytes".as_slice() {
        Some(Setting::WaitBytes(at_most(WAIT_BYTES_MAX, value)?))
    } else if word == b"history".as_slice() {
        Some(Setting::History(at_most(HISTORY_MAX, value)?))
    } else {
        short_limit(word, value)
    }
}

/// The limit that a word names, where its value is at most its greatest one.
#[tactic(auto, unfolding(crate::specs::Settings::limit_with))]
fn limit_with(word: &[u8], value: u64) -> Option<Setting>
    ensures { result ≡ limit_as word.now value }
{
    if word == b"line".as_slice() {
        Some(Setting::Line(at_most(LINE_MAX, value)?))
    } else if word == b"request".as_slice() {
        Some(Setting::Request(at_most(REQUEST_MAX, value)?))
    } else {
        block_limit(word, value)
    }
}

/// A limit by its name and its value, which is at least 1.
pub fn limit(text: &[u8]) -> Option<Setting>
    ensures { result ≡ limit_of text.now }
{
    let value = count_after(text)?;
    limit_with(first_word(text), value)
}

/// The values that are set.
#[derive(Clone, Copy, Debug)]
pub struct Settings {
    pub first: Option<u64>,
    pub run: Option<u64>,
    pub line: Option<u64>,
    pub request: Option<u64>,
    pub wait_blocks: Option<u64>,
    pub wait_bytes: Option<u64>,
    pub history: Option<u64>,
    pub chunk: Option<u32>,
    pub deaths: Option<u32>,
    pub hold: Option<u32>,
}

impl Settings {
    /// Nothing is set.
    pub fn new() -> Settings
        ensures { result ≡ unset }
    {
        Settings {
            first: None,
            run: None,
            line: None,
            request: None,
            wait_blocks: None,
            wait_bytes: None,
            history: None,
            chunk: None,
            deaths: None,
            hold: None,
        }
    }

    /// Whether the setting has a value, whatever this one is.
    pub fn is_set(&self, setting: Setting) -> bool
        ensures { result ≡ is_set_as self.now setting }
    {
        match setting {
            Setting::First(_) => self.first.is_some(),
            Setting::Run(_) => self.run.is_some(),
            Setting::Line(_) => self.line.is_some(),
            Setting::Request(_) => self.request.is_some(),
            Setting::WaitBlocks(_) => self.wait_blocks.is_some(),
            Setting::WaitBytes(_) => self.wait_bytes.is_some(),
            Setting::History(_) => self.history.is_some(),
            Setting::Chunk(_) => self.chunk.is_some(),
            Setting::Deaths(_) => self.deaths.is_some(),
            Setting::Hold(_) => self.hold.is_some(),
        }
    }

    /// The settings, where this one has its value.
    pub fn with(self, setting: Setting) -> Settings
        ensures { result ≡ with_as self setting }
    {
        let mut settings = self;
        match setting {
            Setting::First(value) => settings.first = Some(value),
            Setting::Run(value) => settings.run = Some(value),
            Setting::Line(value) => settings.line = Some(value),
            Setting::Request(value) => settings.request = Some(value),
            Setting::WaitBlocks(value) => settings.wait_blocks = Some(value),
            Setting::WaitBytes(value) => settings.wait_bytes = Some(value),
            Setting::History(value) => settings.history = Some(value),
            Setting::Chunk(value) => settings.chunk = Some(value),
            Setting::Deaths(value) => settings.deaths = Some(value),
            Setting::Hold(value) => settings.hold = Some(value),
        }
        settings
    }

    /// The limits; each is its greatest value where it isn't set.
    pub fn limits(&self) -> Limits
        ensures { result ≡ limits_of self.now }
    {
        Limits {
            line: self.line.unwrap_or(LINE_MAX),
            request: self.request.unwrap_or(REQUEST_MAX),
            wait_blocks: self.wait_blocks.unwrap_or(WAIT_BLOCKS_MAX),
            wait_bytes: self.wait_bytes.unwrap_or(WAIT_BYTES_MAX),
            history: self.history.unwrap_or(HISTORY_MAX),
            chunk: self.chunk.unwrap_or(CHUNK_MAX),
            deaths: self.deaths.unwrap_or(DEATHS_MAX),
            hold: self.hold.unwrap_or(HOLD_MAX),
        }
    }
}

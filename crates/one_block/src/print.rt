//! Numbers and moments as texts.

ghost use Rattle.std.specs.Prelude.{◌≡◌, ◌++◌, replicate, OnOk};
ghost use Rattle.std.specs.Fmt.{decimal};
ghost use Rattle.one_block.specs.Numerals.{padded};
ghost use Rattle.one_block.specs.Moments.{day_text, clock_text, moment_text};

use crate::moments::{CivilDay, ClockTime, Moment};
use itoa::Buffer;
use std::alloc::AllocError;

/// Appends so many zeros.
fn push_zeros(count: usize, text: &mut Vec<u8>) -> Result<(), AllocError>
    ensures { OnOk result (text.new.items ≡ text.old.items ++ replicate count 48) }
{
    for _ in 0..count {
        text.push(b'0')?;
    }
    Ok(())
}

/// Appends a number.
pub fn push_number(number: u64, text: &mut Vec<u8>) -> Result<(), AllocError>
    ensures { OnOk result (text.new.items ≡ text.old.items ++ decimal number) }
{
    let mut buffer = Buffer::new();
    text.extend_from_slice(buffer.format(number).as_bytes())
}

/// Appends a number, with zeros in front where it has fewer digits than `width`.
pub fn push_padded(width: usize, number: u64, text: &mut Vec<u8>) -> Result<(), AllocError>
    ensures { OnOk result (text.new.items ≡ text.old.items ++ padded width number) }
{
    let mut buffer = Buffer::new();
    let digits = buffer.format(number).as_bytes();
    push_zeros(width.saturating_sub(digits.len()), text)?;
    text.extend_from_slice(digits)?;
    Ok(())
}

/// Appends a day, as YYYYMMDD.
fn push_day(day: CivilDay, text: &mut Vec<u8>) -> Result<(), AllocError>
    ensures { OnOk result (text.new.items ≡ text.old.items ++ day_text day) }
{
    push_padded(4, day.year, text)?;
    push_padded(2, day.month, text)?;
    push_padded(2, day.day, text)
}

/// Appends a time of day, as HHMMSS.D.
fn push_clock(clock: ClockTime, text: &mut Vec<u8>) -> Result<(), AllocError>
    ensures { OnOk result (text.new.items ≡ text.old.items ++ clock_text clock) }
{
    push_padded(2, clock.hour, text)?;
    push_padded(2, clock.minute, text)?;
    push_padded(2, clock.second, text)?;
    text.push(b'.')?;
    push_padded(1, clock.tenth, text)
}

/// Appends a moment, as YYYYMMDDTHHMMSS.D.
pub fn push_moment(moment: Moment, text: &mut Vec<u8>) -> Result<(), AllocError>
    ensures { OnOk result (text.new.items ≡ text.old.items ++ moment_text moment) }
{
    push_day(moment.day, text)?;
    text.push(b'T')?;
    push_clock(moment.clock, text)
}

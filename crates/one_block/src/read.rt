//! Numbers and moments from texts.

ghost use Rattle.std.specs.Prelude.{◌≡◌, IfSome, IsTrue};
ghost use Rattle.one_block.specs.Moments.{is_moment};
ghost use Rattle.std.specs.Option.{option_copied, option_map};
ghost use Rattle.one_block.specs.Numerals.{filled_number, without_zeros as unfilled};
ghost use Rattle.one_block.specs.Reading.{digits_at, byte_at, day_at, clock_at, moment_named, tenths_named};
ghost use Rattle.one_block.specs.Seen.{rest_seen};

use crate::moments::{CivilDay, ClockTime, Moment, is_clock, is_day, moment_tenths};
use block_record::read_number;

/// The text without the zeros in front, of which the last stays where nothing follows it.
fn without_zeros(text: &[u8]) -> &[u8]
    ensures { result.now ≡ unfilled text.now }
{
    let mut rest = text;
    while let [b'0', more @ ..] = rest {
        if more.is_empty() {
            break;
        }
        rest = more;
    }
    rest
}

/// The number that the text is, where zeros in front may fill it to `width` digits.
pub fn read_filled(width: usize, text: &[u8]) -> Option<u64>
    ensures { result ≡ filled_number width text.now }
{
    if text.len() < width {
        None
    } else if text.len() == width {
        read_number(without_zeros(text))
    } else {
        read_number(text)
    }
}

/// A number of `width` digits at the front, and what follows it.
fn read_digits(width: usize, text: &[u8]) -> Option<(u64, &[u8])>
    ensures { option_map rest_seen result ≡ digits_at width text.now }
{
    let (digits, rest) = text.split_at_checked(width)?;
    let number = read_filled(width, digits)?;
    Some((number, rest))
}

/// What follows this byte.
fn read_byte(byte: u8, text: &[u8]) -> Option<&[u8]>
    ensures { option_copied result ≡ byte_at byte text.now }
{
    match text {
        [first, rest @ ..] if *first == byte => Some(rest),
        _ => None,
    }
}

/// A day as YYYYMMDD at the front, and what follows it.
#[tactic(auto, unfolding(crate::specs::Reading::day_at))]
fn read_day(text: &[u8]) -> Option<(CivilDay, &[u8])>
    ensures { option_map rest_seen result ≡ day_at text.now }
{
    let (year, text) = read_digits(4, text)?;
    let (month, text) = read_digits(2, text)?;
    let (day, text) = read_digits(2, text)?;
    Some((CivilDay { year, month, day }, text))
}

/// A time of day as HHMMSS.D at the front, and what follows it.
#[tactic(auto, unfolding(crate::specs::Reading::clock_at))]
fn read_clock(text: &[u8]) -> Option<(ClockTime, &[u8])>
    ensures { option_map rest_seen result ≡ clock_at text.now }
{
    let (hour, text) = read_digits(2, text)?;
    let (minute, text) = read_digits(2, text)?;
    let (second, text) = read_digits(2, text)?;
    let text = read_byte(b'.', text)?;
    let (tenth, text) = read_digits(1, text)?;
    let clock = ClockTime {
        hour,
        minute,
        second,
        tenth,
    };
    Some((clock, text))
}

/// The moment that a text YYYYMMDDTHHMMSS.D is, where the calendar has it.
#[tactic(auto, unfolding(crate::specs::Reading::moment_named))]
fn read_moment(text: &[u8]) -> Option<Moment>
    ensures value { result ≡ moment_named text.now }
    ensures good { IfSome result (λ moment. IsTrue (is_moment moment)) }
{
    let (day, text) = read_day(text)?;
    let text = read_byte(b'T', text)?;
    let (clock, text) = read_clock(text)?;
    if text.is_empty() && is_day(day) && is_clock(clock) {
        Some(Moment { day, clock })
    } else {
        None
    }
}

/// The tenths of seconds from 1970 on to the moment that the text is.
pub fn read_tenths(text: &[u8]) -> Option<u64>
    ensures { result ≡ tenths_named text.now }
{
    let moment = read_moment(text)?;
    Some(moment_tenths(moment))
}

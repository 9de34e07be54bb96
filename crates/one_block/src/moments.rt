//! Moments of the calendar, to a tenth of a second, in UTC.

ghost use Rattle.std.specs.Prelude.{◌≡◌, ◌<◌, ◌≤◌, IsTrue};
ghost use Rattle.one_block.specs.Calendar.{day_after as day_so_late, day_number as number_of_day, is_day as has_day};
ghost use Rattle.one_block.specs.Moments.{clock_of as clock_at_tenth, clock_tenths as tenths_of_clock, is_clock as is_shown, moment_of as moment_at, moment_tenths as tenths_of_moment, is_moment as has_moment};

use jiff_core::civil::{Date, days_in_month};

/// A day of the calendar. Months and days count from 1.
#[derive(Clone, Copy, Debug)]
pub struct CivilDay {
    pub year: u64,
    pub month: u64,
    pub day: u64,
}

/// A time of day, to a tenth of a second.
#[derive(Clone, Copy, Debug)]
pub struct ClockTime {
    pub hour: u64,
    pub minute: u64,
    pub second: u64,
    pub tenth: u64,
}

/// A day and a time of it.
#[derive(Clone, Copy, Debug)]
pub struct Moment {
    pub day: CivilDay,
    pub clock: ClockTime,
}

/// The day so many days after 1 January 1970, up to 31 December 9999.
fn day_after(days: u64) -> CivilDay
    requires { days ≤ 2_932_896 }
    ensures { result ≡ day_so_late days }
{
    let Ok(date) = Date::from_unix_epoch_day(days as i64) else {
        unreachable!();
    };
    CivilDay {
        year: date.year as u64,
        month: date.month as u64,
        day: date.day as u64,
    }
}

/// Whether the calendar has the day, in the years 1970 to 9999.
pub fn is_day(day: CivilDay) -> bool
    ensures { result ≡ has_day day }
{
    1970 <= day.year
        && day.year <= 9999
        && 1 <= day.month
        && day.month <= 12
        && 1 <= day.day
        && day.day <= days_in_month(day.year as i16, day.month as u8) as u64
}

/// How many days the day comes after 1 January 1970.
fn day_number(day: CivilDay) -> u64
    requires { IsTrue (has_day day) }
    ensures value { result ≡ number_of_day day }
    ensures bound { result ≤ 2_932_896 }
{
    let Ok(date) = Date::new(day.year as i16, day.month as i8, day.day as i8) else {
        unreachable!();
    };
    date.to_unix_epoch_day() as u64
}

/// The time of day so many tenths of seconds after midnight.
fn clock_of(tenths: u64) -> ClockTime
    ensures { result ≡ clock_at_tenth tenths }
{
    ClockTime {
        hour: tenths / 36_000,
        minute: tenths / 600 % 60,
        second: tenths / 10 % 60,
        tenth: tenths % 10,
    }
}

/// Whether a clock shows the time.
pub fn is_clock(clock: ClockTime) -> bool
    ensures { result ≡ is_shown clock }
{
    clock.hour < 24 && clock.minute < 60 && clock.second < 60 && clock.tenth < 10
}

/// How many tenths of seconds the time comes after midnight.
fn clock_tenths(clock: ClockTime) -> u64
    requires { IsTrue (is_shown clock) }
    ensures value { result ≡ tenths_of_clock clock }
    ensures bound { result < 864_000 }
{
    ((clock.hour * 60 + clock.minute) * 60 + clock.second) * 10 + clock.tenth
}

/// The moment so many tenths of seconds after 1970 began, up to the end of 9999.
pub fn moment_of(tenths: u64) -> Moment
    requires { tenths < 2_534_023_008_000 }
    ensures { result ≡ moment_at tenths }
{
    Moment {
        day: day_after(tenths / 864_000),
        clock: clock_of(tenths % 864_000),
    }
}

/// How many tenths of seconds the moment comes after 1970 began.
pub fn moment_tenths(moment: Moment) -> u64
    requires { IsTrue (has_moment moment) }
    ensures { result ≡ tenths_of_moment moment }
{
    day_number(moment.day) * 864_000 + clock_tenths(moment.clock)
}

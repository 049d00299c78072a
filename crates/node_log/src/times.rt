//! Times of the log, in UTC.
ghost use Rattle.std.specs.Prelude.{◌≡◌, ◌≤◌, ◌*◌, pos};
ghost use Rattle.jiff_core.specs.DateTime.{civil_nanos};
ghost use Rattle.node_log.specs.Times.{IsTime, digit, time_text};

use jiff_core::civil::DateTime;

/// The last millisecond of the year 9999, in milliseconds since 1970.
const LAST: u64 = 253_402_300_799_999;

/// A time as a line of the log says it.
pub(crate) type TimeText = [u8; 24];

/// Returns the time `milliseconds` after the beginning of 1970 in UTC, as `2026-11-28T12:00:00.123Z`. No later one than the last
/// of the year 9999 is said.
pub(crate) fn time_of(milliseconds: u64) -> TimeText
    ensures { IsTime milliseconds result }
{
    time_text(date_time_of(milliseconds.min(LAST)))
}

/// Returns the date and time of day `milliseconds` after the beginning of 1970.
fn date_time_of(milliseconds: u64) -> DateTime
    requires { milliseconds ≤ 253402300799999 }
    ensures { civil_nanos result ≡ pos (milliseconds * 1000000) }
{
    DateTime::from_nanosecond_in_range(i128::from(milliseconds) * 1_000_000)
}

/// Returns a date and time of day as a line of the log says it.
fn time_text(at: DateTime) -> TimeText
    ensures { result ≡ time_text at }
{
    let year = u32::from(at.date.year.unsigned_abs());
    let (month, day) = (u32::from(at.date.month), u32::from(at.date.day));
    let (hour, minute) = (u32::from(at.time.hour), u32::from(at.time.minute));
    let second = u32::from(at.time.second);
    let millisecond = at.time.subsec_nanosecond / 1_000_000;
    [
        digit(year / 1_000),
        digit(year / 100),
        digit(year / 10),
        digit(year),
        b'-',
        digit(month / 10),
        digit(month),
        b'-',
        digit(day / 10),
        digit(day),
        b'T',
        digit(hour / 10),
        digit(hour),
        b':',
        digit(minute / 10),
        digit(minute),
        b':',
        digit(second / 10),
        digit(second),
        b'.',
        digit(millisecond / 100),
        digit(millisecond / 10),
        digit(millisecond),
        b'Z',
    ]
}

/// Returns the last digit of a number.
fn digit(number: u32) -> u8
    ensures { result ≡ digit number }
{
    b'0' + (number % 10) as u8
}

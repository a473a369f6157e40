// Dates: which days there are, and how they are read.
ghost use Rattle.std.specs.Prelude.{◌≡◌};
ghost use Rattle.values.specs.Values.{map_option, read_digits};
ghost use Rattle.values.specs.Dates.{date, is_leap_year, days_in, is_day, date_code, date_from, real_day, read_date};

use crate::numbers::read_digits;
use tables::get_or;
use text::part;

// Whether a year is a leap year.
fn is_leap_year(y: u64) -> bool
    ensures { result ≡ is_leap_year y }
{
    (y % 4 == 0) & ((y % 100 != 0) | (y % 400 == 0))
}

// How many days a month has.
fn days_in(y: u64, m: u64) -> u64
    ensures { result ≡ days_in y m }
{
    match m {
        2 if is_leap_year(y) => 29,
        2 => 28,
        4 | 6 | 9 | 11 => 30,
        _ => 31,
    }
}

// Whether there is such a day, from 1583 to 9999.
fn is_day(y: u64, m: u64, d: u64) -> bool
    ensures { result ≡ is_day (date y m d) }
{
    (1583 <= y) & (y <= 9999) & (1 <= m) & (m <= 12) & (1 <= d) & (d <= days_in(y, m))
}

// Whether a code is that of a day.
pub fn is_date_code(c: u64) -> bool
    ensures { result ≡ is_day (date_from c) }
{
    is_day(c / 10000, c / 100 % 100, c % 100)
}

// The code of a year, a month and a day of the month, where they are read and there is such a day.
fn real_day(year: &[u8], month: &[u8], day: &[u8]) -> Option<u64>
    ensures { result ≡ map_option date_code (real_day (read_digits year.now) (read_digits month.now) (read_digits day.now)) }
{
    let y = read_digits(year)?;
    let m = read_digits(month)?;
    let d = read_digits(day)?;
    if is_day(y, m, d) {
        Some(10000 * y + 100 * m + d)
    } else {
        None
    }
}

// The code of the day that the bytes write.
pub fn read_date(s: &[u8]) -> Option<u64>
    ensures { result ≡ map_option date_code (read_date s.now) }
{
    if (s.len() == 10) & (get_or(s, 4, 0) == b'-') & (get_or(s, 7, 0) == b'-') {
        real_day(part(s, 0, 4), part(s, 5, 2), part(s, 8, 2))
    } else {
        None
    }
}

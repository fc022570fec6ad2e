// Dates and day numbers: proleptic Gregorian, years 1 to 9999. Day 0 is 0001-01-01, a Monday.
ghost use Rattle.std.specs.Prelude.{◌≡◌, ◌≤◌, ◌<◌, ◌+◌};
ghost use Rattle.calendar.specs.Gregorian.{leap_year, leap_day, month_length, days_before_month, days_of_years, day_number, days, IsDate};
ghost use Rattle.calendar.specs.Gregorian.{years_before, month_of, InYear, InMonth};

use super::moments::Moment;
use super::starts::year_start;

// True where y divides by 4 and not by 100, or by 400: a hundredth divides by 400 exactly if by 16.
pub(crate) fn leap_year(y: u32) -> bool
    ensures { result ≡ leap_year y }
{
    if y % 100 == 0 {
        y % 16 == 0
    } else {
        y % 4 == 0
    }
}

// The days that a leap year has more than a common one.
fn leap_day(leap: bool) -> u32
    ensures { (result ≡ leap_day leap) × (result ≤ 1) }
{
    u32::from(leap)
}

// The days of month m.
pub(crate) fn month_length(leap: bool, m: u32) -> u32
    requires { (1 ≤ m) × (m ≤ 12) }
    ensures { result ≡ month_length leap m }
{
    match m {
        2 => 28 + leap_day(leap),
        4 | 6 | 9 | 11 => 30,
        _ => 31,
    }
}

// The days of the year before month m. The months from March on begin two days earlier than on the line, or one in a leap year.
pub(crate) fn days_before_month(leap: bool, m: u32) -> u32
    requires { (1 ≤ m) × (m ≤ 12) }
    ensures { (result ≡ days_before_month leap m) × (result ≤ 335) }
{
    let line = (367 * m - 362) / 12;
    if m <= 2 {
        line
    } else {
        line + leap_day(leap) - 2
    }
}

// The days of the first x years: whole cycles, and the start of a year of the next.
pub(crate) fn days_of_years(x: u32) -> u32
    requires { x ≤ 9999 }
    ensures { (result ≡ days_of_years x) × (result ≤ days) }
{
    Moment::CYCLE * (x / 400) + year_start(x % 400)
}

// The day number of a date.
pub(crate) fn day_number(y: u32, m: u32, d: u32) -> u32
    requires { IsDate y m d }
    ensures { (result ≡ day_number y m d) × (result < days) }
{
    days_of_years(y - 1) + days_before_month(leap_year(y), m) + (d - 1)
}

// The whole years before day n. 22967 / 8388608 is a little less than a day's part of a year, so x is that number or one less, and the
// start of the next year says which.
pub(crate) fn years_before(n: u32) -> u32
    requires { n < days }
    ensures { (result ≡ years_before n) × (result < 9999) × InYear n result }
{
    let x = n / 32 * 22967 / 262144;
    if n < days_of_years(x + 1) { x } else { x + 1 }
}

// The month of day k of a year, counted from 0: the line of `days_before_month` the other way.
pub(crate) fn month_of(leap: bool, k: u32) -> u32
    requires { k < 365 + leap_day leap }
    ensures { (result ≡ month_of leap k) × InMonth leap k result }
{
    let l = leap_day(leap);
    let shift = if k < 59 + l { 0 } else { 2 - l };
    (12 * (k + shift) + 373) / 367
}

// How many days of a course lie before another, without a turn for each of them.
ghost use Rattle.std.specs.Prelude.{◌≡◌, ◌*◌, ◌≤◌, ◌<◌};
ghost use Rattle.calendar.specs.Gregorian.{days, day_of, leap_year};
ghost use Rattle.repeats.specs.Held.{one};
ghost use Rattle.repeats.specs.Occurrences.{weekdays_of, month_at};
ghost use Rattle.repeats.specs.Courses.{IsCourse, repeat_in};
ghost use Rattle.repeats.specs.Firsts.{up};
ghost use Rattle.coming.specs.Counts.{count, rank, count_weekly, leaps, turns_with, months_with, count_monthly, count_before};

use calendar::moments::valid_day;
use repeats::courses::{Course, has_weekday};
use repeats::days::{month_from, rounded_up};
use rules::Freq;

// A common year and a leap year.
const COMMON: u32 = 1;

const LEAP: u32 = 4;

// Of so many turns, 400 apart, those in a leap year; y is the year of the first, and all are of its kind. The quotient is rounded up by what
// is added: `rounded_up` takes a remainder too, at each of 4,800 calls for a 29 February.
fn leap_turns(y: u32, left: u32) -> u32
    requires { left ≤ 10000 }
    ensures { (result ≡ one (leap_year y) * up 400 left) × (result ≤ 25) }
{
    if valid_day(y, 2, 29) {
        (left + 399) / 400
    } else {
        0
    }
}

// The leap years among the u years y, y + i, .., by their remainders by 400 as far as there are any.
fn leap_years(y: u32, i: u32, u: u32) -> u32
    requires { (y ≤ 20000) × (i ≤ 999) × (u ≤ 10000) }
    ensures { (result ≡ leaps y i u) × (result ≤ 10000) }
{
    let mut sum = 0;
    for v in 0..u.min(400) {
        sum += leap_turns(y + i * v, u - v);
    }
    sum
}

// Of u turns 12 apart, in month n and every so many years behind it, those whose month has the day.
fn turns_with(day: u32, i: u32, n: u32, u: u32) -> u32
    requires { (1 ≤ day) × (i ≤ 999) × (n ≤ 200000) × (u ≤ 10000) }
    ensures { (result ≡ turns_with day i n u) × (result ≤ 10000) }
{
    let m = n % 12 + 1;
    if valid_day(COMMON, m, day) {
        u
    } else if valid_day(LEAP, m, day) {
        leap_years(n / 12 + 1, i, u)
    } else {
        0
    }
}

// Of the first turns from a month on those whose month has the day, by their remainders by 12 as far as there are any.
fn months_with(day: u32, i: u32, month: u32, turns: u32) -> u32
    requires { (1 ≤ day) × (i ≤ 999) × (month ≤ 120000) × (turns ≤ 120000) }
    ensures { result ≡ months_with day i month turns }
{
    let mut sum = 0;
    for r in 0..turns.min(12) {
        sum += turns_with(day, i, month + i * r, rounded_up(12, turns - r));
    }
    sum
}

// How many weekdays below w are of the set.
fn weekdays_below(bits: u32, start: u32, w: u32) -> u32
    requires { w ≤ 7 }
    ensures { (result ≡ count (weekdays_of bits start) w) × (result ≤ w) }
{
    let mut sum = 0;
    for k in 0..w {
        sum += u32::from(has_weekday(bits, start, k));
    }
    sum
}

// The days of the set in the weeks that count, from the Monday of the start's week on below day b.
fn weekly_rank(c: Course, b: u32) -> u32
    requires { (1 ≤ c.interval) × (c.interval ≤ 999) × (c.start ≤ b) × (b < days) }
    ensures { result ≡ rank (weekdays_of c.days c.start) c.interval c.start b }
{
    let weeks = b / 7 - c.start / 7;
    let whole = weekdays_below(c.days, c.start, 7) * rounded_up(c.interval, weeks);
    if weeks % c.interval == 0 {
        whole + weekdays_below(c.days, c.start, b % 7)
    } else {
        whole
    }
}

// Those from the start on.
fn count_weekly(c: Course, b: u32) -> u32
    requires { (1 ≤ c.interval) × (c.interval ≤ 999) × (c.start ≤ b) × (b < days) }
    ensures { result ≡ count_weekly (weekdays_of c.days c.start) c.interval c.start b }
{
    weekly_rank(c, b) - weekdays_below(c.days, c.start, c.start % 7)
}

// Of the course's months before day b those that have the day.
fn count_monthly(c: Course, b: u32) -> u32
    requires { (1 ≤ c.interval) × (c.interval ≤ 999) × (c.month ≡ month_at c.start) × (day_of c.start ≡ c.day) × (c.start ≤ b) × (b < days) }
    ensures { result ≡ count_monthly c.day c.interval c.start b }
{
    let turns = rounded_up(c.interval, month_from(c.day, b) - c.month);
    months_with(c.day, c.interval, c.month, turns)
}

// How many of the course's days lie before day b.
pub(crate) fn count_before(c: Course, b: u32) -> u32
    requires { IsCourse c × (c.start ≤ b) × (b < days) }
    ensures { result ≡ count_before (repeat_in c) c.interval c.start b }
{
    match c.freq {
        Freq::Daily => rounded_up(c.interval, b - c.start),
        Freq::Weekly => count_weekly(c, b),
        Freq::Monthly => count_monthly(c, b),
    }
}

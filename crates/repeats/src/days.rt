// The least day from another on at which a course holds.
ghost use Rattle.std.specs.Prelude.{◌≡◌, true, suc, ◌+◌, ◌-◌, ◌*◌, ◌/◌, ◌≤◌, ◌<◌, min};
ghost use Rattle.calendar.specs.Gregorian.{days, day_of};
ghost use Rattle.calendar.specs.Moments.{months};
ghost use Rattle.repeats.specs.Held.{seek};
ghost use Rattle.repeats.specs.Occurrences.{weekdays_of, month_at};
ghost use Rattle.repeats.specs.Courses.{IsCourse, repeat_in};
ghost use Rattle.repeats.specs.Firsts.{up, has_day, day_in, month_from, first_daily, first_weekly, first_monthly, first_from};

use super::courses::{Course, has_weekday};
use calendar::moments::{Moment, valid_day};
use rules::Freq;

// The turns that are looked at: among so many of a rule's months one has the day.
const TURNS: u32 = 16;

// n over i, rounded up.
pub fn rounded_up(i: u32, n: u32) -> u32
    requires { (1 ≤ i) × (i ≤ 999) × (n ≤ days) }
    ensures { (result ≡ up i n) × (i * result < n + i) }
{
    n.div_ceil(i)
}

// The day from b on that is a multiple of the interval away from the start.
fn first_daily(i: u32, s: u32, b: u32) -> u32
    requires { (1 ≤ i) × (i ≤ 999) × (s ≤ b) × (b < days) }
    ensures { result ≡ first_daily i s b }
{
    s + i * rounded_up(i, b - s)
}

// The set's first weekday from w on, or 7.
fn next_weekday(bits: u32, s: u32, w: u32) -> u32
    requires { w ≤ 7 }
    ensures { (result ≡ seek (weekdays_of bits s) w (7 - w)) × (result ≤ 7) }
{
    for k in w..7 {
        if has_weekday(bits, s, k) {
            return k;
        }
    }
    7
}

// The set's first day in the next week that counts, so many weeks behind the start's.
fn later_week(c: Course, weeks: u32) -> u32
    requires { (1 ≤ c.interval) × (c.interval ≤ 999) × (c.start < days) × (weeks ≤ days / 7) }
    ensures { let i = c.interval in let s = c.start in result ≡ 7 * (s / 7 + i * up i (suc weeks)) + seek (weekdays_of c.days s) 0 7 }
{
    let i = c.interval;
    let turn = rounded_up(i, weeks + 1);
    7 * (c.start / 7 + i * turn) + next_weekday(c.days, c.start, 0)
}

// The set's next day in b's week, if the week counts and has one, else in the next week that counts.
fn first_weekly(c: Course, b: u32) -> u32
    requires { (1 ≤ c.interval) × (c.interval ≤ 999) × (c.start ≤ b) × (b < days) }
    ensures { result ≡ first_weekly (weekdays_of c.days c.start) c.interval c.start b }
{
    let weeks = b / 7 - c.start / 7;
    if weeks % c.interval == 0 {
        let here = next_weekday(c.days, c.start, b % 7);
        if here < 7 {
            return 7 * (b / 7) + here;
        }
    }
    later_week(c, weeks)
}

// True where month n has a day d.
fn has_day(d: u32, n: u32) -> bool
    requires { 1 ≤ d }
    ensures { result ≡ has_day d n }
{
    valid_day(n / 12 + 1, n % 12 + 1, d)
}

// Day d of month n.
fn day_in(d: u32, n: u32) -> u32
    requires { (1 ≤ d) × (n < months) × (has_day d n ≡ true) }
    ensures { (result ≡ day_in d n) × (result < days) }
{
    Moment::first()
        .with_date(n / 12 + 1, n % 12 + 1, d)
        .day_number()
}

// The first month whose day d, if it has one, is at or after day b.
pub fn month_from(d: u32, b: u32) -> u32
    requires { b < days }
    ensures { (result ≡ month_from d b) × (result ≤ months) }
{
    let t = Moment::first().at_day(b);
    t.month_number() + u32::from(d < t.day)
}

// The first of a course's months, from a turn on, that has the day.
fn month_with_day(c: Course, turn: u32) -> u32
    requires { (1 ≤ c.day) × (c.interval ≤ 999) × (c.month + c.interval * turn ≤ 200000) }
    ensures { let i = c.interval in let m = c.month in result ≡ m + i * seek (λ t. has_day c.day (m + i * t)) turn 16 }
{
    let first = c.month + c.interval * turn;
    for k in 0..TURNS {
        let n = first + c.interval * k;
        if has_day(c.day, n) {
            return n;
        }
    }
    first + c.interval * TURNS
}

// The day in the first of the course's months from b's on that has it, or the calendar's end.
fn first_monthly(c: Course, b: u32) -> u32
    requires { (1 ≤ c.interval) × (c.interval ≤ 999) × (c.month ≡ month_at c.start) × (day_of c.start ≡ c.day) × (c.start ≤ b) × (b < days) }
    ensures { result ≡ min (first_monthly c.day c.interval c.start b) days }
{
    let turn = rounded_up(c.interval, month_from(c.day, b) - c.month);
    let n = month_with_day(c, turn);
    if (n as u64) < Moment::MONTHS {
        day_in(c.day, n)
    } else {
        Moment::DAYS
    }
}

// The least day from b on at which the course holds, or the calendar's end.
pub fn first_from(c: Course, b: u32) -> u32
    requires { IsCourse c × (c.start ≤ b) × (b < days) }
    ensures { result ≡ min (first_from (repeat_in c) c.interval c.start b) days }
{
    match c.freq {
        Freq::Daily => first_daily(c.interval, c.start, b).min(Moment::DAYS),
        Freq::Weekly => first_weekly(c, b).min(Moment::DAYS),
        Freq::Monthly => first_monthly(c, b),
    }
}

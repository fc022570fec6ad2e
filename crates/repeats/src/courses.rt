// A rule from a start on, its missing parts filled in once.
ghost use Rattle.std.specs.Prelude.{◌≡◌, ◌<◌};
ghost use Rattle.calendar.specs.Gregorian.{day_of};
ghost use Rattle.calendar.specs.Moments.{IsMoment};
ghost use Rattle.rules.specs.Rule.{IsBound, IsRule};
ghost use Rattle.repeats.specs.Occurrences.{weekdays_of, month_day_of, time_of_day, limit_of};
ghost use Rattle.repeats.specs.Courses.{count_of, course_of, holds_in, begun_of};

use calendar::moments::Moment;
use refusals::Reason;
use rules::{Bound, Freq, Rule};

// The numbers that listing and asking begin from. `start` and `month` are the start's day and month number; `days` is BYDAY's bits, 0 where
// there is none; `day` is the day of the month; `limit` is the first day too late, and `count` the most days.
#[derive(Clone, Copy)]
pub struct Course {
    pub freq: Freq,
    pub interval: u32,
    pub start: u32,
    pub month: u32,
    pub days: u32,
    pub day: u32,
    pub limit: u32,
    pub count: u32,
}

// True where BYDAY has weekday w, or w is the start's own and there is no BYDAY.
pub fn has_weekday(bits: u32, start: u32, w: u32) -> bool
    requires { w < 7 }
    ensures { result ≡ weekdays_of bits start w }
{
    if bits == 0 {
        w == start % 7
    } else {
        (bits >> w) & 1 == 1
    }
}

// BYMONTHDAY, or the start's own day.
fn month_day(day: u32, start: Moment) -> u32
    ensures { result ≡ month_day_of day start }
{
    if day == 0 { start.day } else { day }
}

// The milliseconds of a moment's day that have passed.
pub fn time_of_day(t: Moment) -> u32
    requires { IsMoment t }
    ensures { result ≡ time_of_day t }
{
    1000 * (60 * (60 * t.hour + t.minute) + t.second) + t.millisecond
}

// The first day too late.
fn limit_of(bound: Bound, start: Moment) -> u32
    requires { IsBound bound × IsMoment start }
    ensures { result ≡ limit_of bound start }
{
    match bound {
        Bound::Endless | Bound::Count(_) => Moment::DAYS,
        Bound::UntilDay(y, m, d) => start.with_date(y, m, d).day_number() + 1,
        Bound::UntilMoment(until) => {
            until.day_number() + u32::from(time_of_day(start) <= time_of_day(until))
        }
    }
}

// COUNT, or as many as the calendar has days.
fn count_of(bound: Bound) -> u32
    ensures { result ≡ count_of bound }
{
    match bound {
        Bound::Count(n) => n,
        Bound::Endless | Bound::UntilDay(_, _, _) | Bound::UntilMoment(_) => Moment::DAYS,
    }
}

// The numbers of a rule from a start on.
fn course_of(rule: Rule, start: Moment) -> Course
    requires { IsRule rule × IsMoment start }
    ensures { result ≡ course_of rule start }
{
    Course {
        freq: rule.freq,
        interval: rule.interval,
        start: start.day_number(),
        month: start.month_number(),
        days: rule.days,
        day: month_day(rule.day, start),
        limit: limit_of(rule.bound, start),
        count: count_of(rule.bound),
    }
}

// True where the start, whose day of the month is given, is one of the course's days.
fn matches(c: Course, day: u32) -> bool
    requires { day_of c.start ≡ day }
    ensures { result ≡ holds_in c c.start }
{
    match c.freq {
        Freq::Daily => true,
        Freq::Weekly => has_weekday(c.days, c.start, c.start % 7),
        Freq::Monthly => day == c.day,
    }
}

// The course of a rule: 19 for a start that doesn't match or lies past UNTIL.
pub fn begin(rule: Rule, start: Moment) -> Result<Course, Reason>
    requires { IsRule rule × IsMoment start }
    ensures { result ≡ begun_of rule start }
{
    let c = course_of(rule, start);
    if matches(c, start.day) && c.start < c.limit {
        Ok(c)
    } else {
        Err(Reason::NoStart)
    }
}

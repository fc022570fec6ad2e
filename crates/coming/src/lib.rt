// Which occurrence of a rule comes next: the first at or after a moment, without those before it.
#![tactic(auto)]

ghost use Rattle.std.specs.Prelude.{◌≡◌, ◌≤◌, ◌<◌, IfSome};
ghost use Rattle.calendar.specs.Gregorian.{days};
ghost use Rattle.calendar.specs.Moments.{IsMoment};
ghost use Rattle.rules.specs.Rule.{IsRule};
ghost use Rattle.repeats.specs.Courses.{IsCourse, repeat_in};
ghost use Rattle.coming.specs.Next.{asked_day, next_day, next_of, answered};

use before::count_before;
use calendar::moments::Moment;
use refusals::Reason;
use repeats::courses::{Course, begin, time_of_day};
use repeats::days::first_from;
use rules::Rule;

mod before;

// The first day whose moment, at the start's time of day, is at or after the asked one.
fn asked_day(start: Moment, asked: Moment) -> u32
    requires { IsMoment start × IsMoment asked }
    ensures { (result ≡ asked_day start asked) × (result ≤ days) }
{
    asked.day_number() + u32::from(time_of_day(start) < time_of_day(asked))
}

// The first of the course's days from b on. Without COUNT nothing is counted.
fn next_day(c: Course, b: u32) -> Option<u32>
    requires { IsCourse c × (1 ≤ c.count) × (b ≤ days) }
    ensures value { result ≡ next_day (repeat_in c) c.interval c.start c.limit c.count b }
    ensures below { IfSome result (λ n. n < days) }
{
    if b <= c.start {
        return Some(c.start);
    }
    if b >= Moment::DAYS {
        return None;
    }
    let n = first_from(c, b);
    if n < c.limit && (c.count >= Moment::DAYS || count_before(c, b) < c.count) {
        Some(n)
    } else {
        None
    }
}

// The first occurrence at or after the asked moment, or 19 or 20.
#[tactic(auto, using(crate::proofs::Closed::asking))]
pub fn next(rule: Rule, start: Moment, asked: Moment) -> Result<Moment, Reason>
    requires { IsRule rule × IsMoment start × IsMoment asked }
    ensures { result ≡ answered (next_of rule start asked) }
{
    let c = begin(rule, start)?;
    let n = next_day(c, asked_day(start, asked)).ok_or(Reason::NoNext)?;
    Ok(start.at_day(n))
}

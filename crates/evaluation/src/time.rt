// A time of day on a date.
ghost use Rattle.std.specs.Prelude.{◌≡◌};
ghost use Rattle.calendar.specs.Moments.{IsMoment, in_range, reached_of, Valid};
ghost use Rattle.evaluation.specs.Times.{stated_time, time_at};

use calendar::moments::{Moment, valid_time};
use dates::time::Time;
use refusals::Reason;

// A stated time has second and millisecond 0.
fn stated_time(valid: bool, h: u32, m: u32, t: Moment) -> Result<Moment, Reason>
    requires { IsMoment t }
    ensures result_value { reached_of result ≡ stated_time valid h m t }
    ensures valid { Valid (reached_of result) }
{
    if valid && valid_time(h, m, 0, 0) {
        Ok(t.with_time(h, m, 0, 0))
    } else {
        Err(Reason::NoTime)
    }
}

// With am or pm hours are 1 to 12.
fn is_half_day_hour(h: u32) -> bool
    ensures { result ≡ in_range h 1 12 }
{
    (1..=12).contains(&h)
}

// Time::to_chrono, on the date of t: without a time now's time of day.
pub fn time_at(time: Time, now: Moment, t: Moment) -> Result<Moment, Reason>
    requires { IsMoment now × IsMoment t }
    ensures result_value { reached_of result ≡ time_at time now t }
    ensures valid { Valid (reached_of result) }
{
    match time {
        Time::Empty => Ok(t.with_time(now.hour, now.minute, now.second, now.millisecond)),
        Time::HourMin(h, m) => stated_time(true, h, m, t),
        Time::HourMinAM(h, m) => stated_time(is_half_day_hour(h), h % 12, m, t),
        Time::HourMinPM(h, m) => stated_time(is_half_day_hour(h), h % 12 + 12, m, t),
    }
}

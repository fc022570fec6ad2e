// Dates at a now.
ghost use Rattle.std.specs.Prelude.{◌≡◌};
ghost use Rattle.calendar.specs.Moments.{IsMoment, reached_of, Valid};
ghost use Rattle.evaluation.specs.Dates.{stated_date, date_at};

use calendar::moments::{Moment, valid_date};
use dates::date::Date;
use refusals::Reason;

// A stated date at the time of day of t: the year's range before month and day.
fn stated_date(y: u32, m: u32, d: u32, t: Moment) -> Result<Moment, Reason>
    requires { IsMoment t }
    ensures result_value { reached_of result ≡ stated_date y m d t }
    ensures valid { Valid (reached_of result) }
{
    if !(1..=9999).contains(&y) {
        return Err(Reason::Outside);
    }
    if valid_date(y, m, d) {
        Ok(t.with_date(y, m, d))
    } else {
        Err(Reason::NoDate)
    }
}

// Date::to_chrono, at the time of day of t.
pub fn date_at(date: Date, t: Moment) -> Result<Moment, Reason>
    requires { IsMoment t }
    ensures result_value { reached_of result ≡ date_at date t }
    ensures valid { Valid (reached_of result) }
{
    match date {
        Date::Today | Date::Empty => Ok(t),
        Date::Yesterday => t.minutes_step(true, 1440),
        Date::Tomorrow => t.minutes_step(false, 1440),
        Date::MonthNumDay(m, d) | Date::MonthDay(m, d) => stated_date(t.year, m, d, t),
        Date::MonthNumDayYear(m, d, y)
        | Date::YearMonthNumDay(y, m, d)
        | Date::MonthDayYear(m, d, y)
        | Date::DayMonthYear(d, m, y) => stated_date(y, m, d, t),
    }
}

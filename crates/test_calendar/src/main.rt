// Prints days, dates and steps of the calendar, one a line. What it must print is made by another calendar (data/expected.py).
#![tactic(auto)]

ghost use Rattle.calendar.specs.Moments.{IsMoment};

use calendar::fixed::put_moment;
use calendar::moments::{Moment, weekday_of};
use refusals::Reason;
use std::fmt::Display;
use std::io;

// A moment as text; its first ten bytes are its date.
fn text_of(t: Moment) -> [u8; 19] {
    let mut text = [0u8; 19];
    put_moment(&mut text, b' ', t);
    text
}

// The date, the day number and the weekday of a moment.
fn write_day(rt: &impl Print, t: Moment) -> io::Result<()>
    requires { IsMoment t }
{
    let n = t.day_number();
    rt.write_all(&text_of(t)[..10])?;
    println!(rt; " is day {n}, weekday {}", weekday_of(n))
}

// Day n: its date, and that date's number and weekday.
fn day(rt: &impl Print, n: u32) -> io::Result<()> {
    match Moment::first().on_day(n) {
        Ok(t) => write_day(rt, t),
        Err(reason) => println!(rt; "refused {}", reason.number()),
    }
}

// 29 February of year y, if there is one.
fn leap_day(rt: &impl Print, y: u32) -> io::Result<()> {
    let t = Moment::first().with_date(y, 2, 29);
    if t.valid() {
        return write_day(rt, t);
    }
    rt.write_all(&text_of(t)[..10])?;
    println!(rt; " is no date")
}

// A step from t, as it is said, and what it reaches, or the refusal's number.
fn write_step(
    rt: &impl Print,
    t: Moment,
    said: impl Display + Drop,
    reached: Result<Moment, Reason>,
) -> io::Result<()> {
    rt.write_all(&text_of(t))?;
    print!(rt; ", {said}: ")?;
    match reached {
        Ok(u) => rt.write_all(&text_of(u))?,
        Err(reason) => print!(rt; "refused {}", reason.number())?,
    }
    println!(rt)
}

// The steps of size k from t, later and earlier.
fn both_steps<F: Fn(bool) -> Result<Moment, Reason>>(
    rt: &impl Print,
    t: Moment,
    k: u64,
    unit: &str,
    step: F,
) -> io::Result<()>
    requires { F.IsAlwaysCallable step }
{
    write_step(rt, t, format_args!("{k} {unit} later"), step(false))?;
    write_step(rt, t, format_args!("{k} {unit} earlier"), step(true))
}

// The six steps of size k.
fn steps(rt: &impl Print, t: Moment, k: u64) -> io::Result<()>
    requires { IsMoment t }
{
    both_steps(rt, t, k, "minutes", |back| t.minutes_step(back, k))?;
    both_steps(rt, t, k, "months", |back| t.months_step(back, k))?;
    both_steps(rt, t, k, "years", |back| t.years_step(back, k))
}

// Steps from t, if it is a moment: small ones, those on both sides of each limit, and the largest.
fn start(rt: &impl Print, t: Moment) -> io::Result<()> {
    if t.valid() {
        for k in [
            0,
            1,
            4,
            9998,
            9999,
            119987,
            119988,
            5258964959,
            5258964960,
            u64::MAX,
        ] {
            steps(rt, t, k)?;
        }
    }
    Ok(())
}

// Every 997th day, the last, and the first past it.
fn days(rt: &impl Print) -> io::Result<()> {
    for i in 0..3664 {
        day(rt, 997 * i)?;
    }
    day(rt, Moment::DAYS - 1)?;
    day(rt, Moment::DAYS)
}

// 29 February of the years that divide by 100, and of every fourth year of four centuries.
fn leap_days(rt: &impl Print) -> io::Result<()> {
    for i in 0..101 {
        leap_day(rt, 100 * i)?;
        leap_day(rt, 1700 + 4 * i)?;
    }
    Ok(())
}

fn main(rt: HostRuntime) -> io::Result<()> {
    days(&rt)?;
    leap_days(&rt)?;
    start(&rt, Moment::first())?;
    for (year, month, day) in [(1900, 1, 31), (2024, 1, 31), (2024, 2, 29), (9996, 2, 29)] {
        start(&rt, Moment::last().with_date(year, month, day))?;
    }
    start(&rt, Moment::last())
}

// Moments of the calendar, and the steps from one to another with their refusals.
ghost use Rattle.std.specs.Prelude.{◌≡◌, ◌<◌};
ghost use Rattle.calendar.specs.Gregorian.{days, weekday};
ghost use Rattle.calendar.specs.Moments.{IsMoment, moment_in, seven, is_day_of_month, is_date, is_time, is_moment, first_moment, last_moment};
ghost use Rattle.calendar.specs.Moments.{with_date, with_time, with_minute, reached_of, Valid, day_of_moment, at_day, on_day};
ghost use Rattle.calendar.specs.Moments.{moved_within, minute_number, minutes, at_minute, minutes_step};
ghost use Rattle.calendar.specs.Moments.{second_number, seconds, moment_at};
ghost use Rattle.calendar.specs.Moments.{month_number, months, in_month, months_step, years, in_year, years_step};

use super::gregorian::{
    day_number, days_before_month, days_of_years, leap_year, month_length, month_of, years_before,
};
use refusals::Reason;

// How many numbers a moment has, in the array of a caller.
pub const MOMENT_NUMBERS: usize = 7;

// A date and a time of day.
#[derive(Clone, Copy, PartialEq, Eq)]
pub struct Moment {
    pub year: u32,
    pub month: u32,
    pub day: u32,
    pub hour: u32,
    pub minute: u32,
    pub second: u32,
    pub millisecond: u32,
}

impl From<[u32; MOMENT_NUMBERS]> for Moment {
    ghost from_gives = { λ numbers t. t ≡ moment_in numbers };

    // The seven numbers of an array, in the order of the fields.
    fn from(numbers: [u32; MOMENT_NUMBERS]) -> Moment {
        let [year, month, day, hour, minute, second, millisecond] = numbers;
        Moment {
            year,
            month,
            day,
            hour,
            minute,
            second,
            millisecond,
        }
    }
}

impl From<Moment> for [u32; MOMENT_NUMBERS] {
    ghost from_gives = { λ t numbers. numbers ≡ seven t };

    // The seven numbers in the order of the fields.
    fn from(t: Moment) -> [u32; MOMENT_NUMBERS] {
        [
            t.year,
            t.month,
            t.day,
            t.hour,
            t.minute,
            t.second,
            t.millisecond,
        ]
    }
}

// The weekday of day n, 0 for Monday to 6 for Sunday.
pub fn weekday_of(n: u32) -> u32
    ensures { result ≡ weekday n }
{
    n % 7
}

// True where the year's month m has day d, whatever the year. Every month has the days up to its 28th.
pub fn valid_day(y: u32, m: u32, d: u32) -> bool
    ensures { result ≡ is_day_of_month y m d }
{
    (1..=12).contains(&m) && d >= 1 && (d <= 28 || d <= month_length(leap_year(y), m))
}

// True where the numbers are a date of the calendar.
pub fn valid_date(y: u32, m: u32, d: u32) -> bool
    ensures { result ≡ is_date y m d }
{
    (1..=Moment::YEARS).contains(&y) && valid_day(y, m, d)
}

// True where the numbers are a time of day.
pub fn valid_time(h: u32, m: u32, s: u32, ms: u32) -> bool
    ensures { result ≡ is_time h m s ms }
{
    h < 24 && m < 60 && s < 60 && ms < 1000
}

// Place n of those below a limit, moved by k back or on, if that is one of them. The room left is compared, since a sum could pass
// 64 bits.
fn moved(back: bool, k: u64, n: u64, limit: u64) -> Option<u64>
    requires { n < limit }
    ensures { result ≡ moved_within back k n limit }
{
    if back {
        n.checked_sub(k)
    } else {
        (k < limit - n).then(|| n + k)
    }
}

impl Moment {
    // The first and the last moment of the calendar.
    pub const FIRST: Moment = Moment {
        year: 1,
        month: 1,
        day: 1,
        hour: 0,
        minute: 0,
        second: 0,
        millisecond: 0,
    };

    pub const LAST: Moment = Moment {
        year: 9999,
        month: 12,
        day: 31,
        hour: 23,
        minute: 59,
        second: 59,
        millisecond: 999,
    };

    // The days of 400 years.
    pub const CYCLE: u32 = 146097;

    // The days, years, months and minutes of the calendar.
    pub const DAYS: u32 = 3652059;

    const YEARS: u32 = 9999;

    pub const MONTHS: u64 = 119988;

    const MINUTES: u64 = 5258964960;

    // The first moment.
    pub fn first() -> Self
        ensures { result ≡ first_moment }
    {
        Self::FIRST
    }

    // The last moment.
    pub fn last() -> Self
        ensures { result ≡ last_moment }
    {
        Self::LAST
    }

    // True where the fields are a date and a time of the calendar.
    pub fn valid(self) -> bool
        ensures { result ≡ is_moment self }
    {
        valid_date(self.year, self.month, self.day)
            && valid_time(self.hour, self.minute, self.second, self.millisecond)
    }

    // The same time of day on another date.
    pub fn with_date(mut self, y: u32, m: u32, d: u32) -> Moment
        ensures { result ≡ with_date y m d self }
    {
        self.year = y;
        self.month = m;
        self.day = d;
        self
    }

    // Another time of day on the same date.
    pub fn with_time(mut self, h: u32, m: u32, s: u32, ms: u32) -> Moment
        ensures { result ≡ with_time h m s ms self }
    {
        self.hour = h;
        self.minute = m;
        self.second = s;
        self.millisecond = ms;
        self
    }

    // Another hour and minute of the same date, with second and millisecond kept.
    fn with_minute(self, h: u32, m: u32) -> Moment
        ensures { result ≡ with_minute h m self }
    {
        self.with_time(h, m, self.second, self.millisecond)
    }

    // The day number of this date.
    pub fn day_number(self) -> u32
        requires { IsMoment self }
        ensures { (result ≡ day_of_moment self) × (result < days) }
    {
        day_number(self.year, self.month, self.day)
    }

    // The same time of day on day n of the calendar.
    pub fn at_day(self, n: u32) -> Moment
        requires { n < days }
        ensures { result ≡ at_day n self }
    {
        let x = years_before(n);
        let leap = leap_year(x + 1);
        let k = n - days_of_years(x);
        let m = month_of(leap, k);
        let d = k - days_before_month(leap, m) + 1;
        self.with_date(x + 1, m, d)
    }

    // The same time of day on day n, if the calendar has that day.
    pub fn on_day(self, n: u32) -> Result<Moment, Reason>
        ensures { reached_of result ≡ on_day n self }
    {
        if n < Self::DAYS {
            Ok(self.at_day(n))
        } else {
            Err(Reason::Outside)
        }
    }

    // The whole minutes from the first moment on.
    fn minute_number(self) -> u64
        requires { IsMoment self }
        ensures { (result ≡ minute_number self) × (result < minutes) }
    {
        1440 * (self.day_number() as u64) + 60 * (self.hour as u64) + (self.minute as u64)
    }

    // Minute n of the calendar, with second and millisecond kept.
    fn at_minute(self, n: u64) -> Moment
        requires { n < minutes }
        ensures { result ≡ at_minute n self }
    {
        self.at_day((n / 1440) as u32)
            .with_minute((n % 1440 / 60) as u32, (n % 60) as u32)
    }

    // So many minutes, back or on.
    pub fn minutes_step(self, back: bool, k: u64) -> Result<Moment, Reason>
        requires { IsMoment self }
        ensures result_value { reached_of result ≡ minutes_step back k self }
        ensures valid { Valid (reached_of result) }
    {
        let n = moved(back, k, self.minute_number(), Self::MINUTES).ok_or(Reason::Outside)?;
        Ok(self.at_minute(n))
    }

    // The whole seconds from the first moment on.
    pub fn second_number(self) -> u64
        requires { IsMoment self }
        ensures { (result ≡ second_number self) × (result < seconds) }
    {
        60 * self.minute_number() + (self.second as u64)
    }

    // Second n of the calendar, with a millisecond.
    pub fn at_second(n: u64, millisecond: u32) -> Moment
        requires { n < seconds }
        ensures { result ≡ moment_at n millisecond }
    {
        Self::FIRST
            .with_time(0, 0, (n % 60) as u32, millisecond)
            .at_minute(n / 60)
    }

    // The whole months from the first moment on.
    pub fn month_number(self) -> u32
        requires { IsMoment self }
        ensures { (result ≡ month_number self) × (result < months) }
    {
        12 * (self.year - 1) + (self.month - 1)
    }

    // The same day and time in month n of the calendar, or that month's last day.
    fn in_month(self, n: u32) -> Moment
        requires { n < months }
        ensures { result ≡ in_month n self }
    {
        let y = n / 12 + 1;
        let m = n % 12 + 1;
        let d = self.day.min(month_length(leap_year(y), m));
        self.with_date(y, m, d)
    }

    // So many months, back or on.
    pub fn months_step(self, back: bool, k: u64) -> Result<Moment, Reason>
        requires { IsMoment self }
        ensures result_value { reached_of result ≡ months_step back k self }
        ensures valid { Valid (reached_of result) }
    {
        let n = moved(back, k, self.month_number() as u64, Self::MONTHS).ok_or(Reason::Outside)?;
        Ok(self.in_month(n as u32))
    }

    // The same month, day and time in year n of the calendar, counted from 0, if that year has the day.
    fn in_year(self, n: u32) -> Result<Moment, Reason>
        requires { IsMoment self × (n < years) }
        ensures { reached_of result ≡ in_year n self }
    {
        let y = n + 1;
        if self.day <= month_length(leap_year(y), self.month) {
            Ok(self.with_date(y, self.month, self.day))
        } else {
            Err(Reason::NoLeapDay)
        }
    }

    // So many years, back or on. The year's range is tested before its days.
    pub fn years_step(self, back: bool, k: u64) -> Result<Moment, Reason>
        requires { IsMoment self }
        ensures result_value { reached_of result ≡ years_step back k self }
        ensures valid { Valid (reached_of result) }
    {
        let n = moved(back, k, (self.year - 1) as u64, Self::YEARS as u64).ok_or(Reason::Outside)?;
        self.in_year(n as u32)
    }
}

// A repeating rule of RFC 5545, section 3.3.10, as far as it is taken: every so many days, weeks or months.
#![tactic(auto)]

use calendar::moments::Moment;

mod draft;
mod part;
pub mod read;

// FREQ.
#[derive(Clone, Copy, PartialEq, Eq)]
pub enum Freq {
    Daily,
    Weekly,
    Monthly,
}

// COUNT, or UNTIL as a civil date, that day included, or as a civil date-time, or neither.
#[derive(Clone, Copy)]
pub enum Bound {
    Endless,
    Count(u32),
    UntilDay(u32, u32, u32),
    UntilMoment(Moment),
}

// A rule. `days` has a bit for each weekday of BYDAY, Monday the lowest, and is 0 where there is none; `day` is BYMONTHDAY, 0 where there is none.
#[derive(Clone, Copy)]
pub struct Rule {
    pub freq: Freq,
    pub interval: u32,
    pub bound: Bound,
    pub days: u32,
    pub day: u32,
}

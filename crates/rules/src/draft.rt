// A rule of which only some parts are read.
ghost use Rattle.std.specs.Prelude.{◌≡◌};
ghost use Rattle.rules.specs.Rules.{draft_of, begun, put, rule_in};

use super::part::Part;
use super::{Bound, Freq, Rule};
use digits::form::of_form;

// A rule's parts behind FREQ, none where they are free; `monday` says that WKST was there.
#[derive(Clone, Copy)]
pub struct Draft {
    pub freq: Freq,
    pub interval: Option<u32>,
    pub bound: Option<Bound>,
    pub days: Option<u32>,
    pub day: Option<u32>,
    pub monday: bool,
}

// A rule of which only FREQ is read.
fn draft_of(freq: Freq) -> Draft
    ensures { result ≡ draft_of freq }
{
    Draft {
        freq,
        interval: None,
        bound: None,
        days: None,
        day: None,
        monday: false,
    }
}

// FREQ, the first of all parts.
#[tactic(auto, unfolding(crate::specs::Rules::begun))]
pub(crate) fn begun(part: &[u8]) -> Option<Draft>
    ensures { result ≡ begun part.now }
{
    if of_form(b"FREQ=DAILY", part) {
        Some(draft_of(Freq::Daily))
    } else if of_form(b"FREQ=WEEKLY", part) {
        Some(draft_of(Freq::Weekly))
    } else if of_form(b"FREQ=MONTHLY", part) {
        Some(draft_of(Freq::Monthly))
    } else {
        None
    }
}

// A part in its place, if that is free: COUNT and UNTIL share one, BYDAY is WEEKLY's and BYMONTHDAY MONTHLY's.
pub(crate) fn put(d: Draft, part: Part) -> Option<Draft>
    ensures { result ≡ put d part }
{
    match part {
        Part::Interval(n) if d.interval.is_none() => Some(Draft {
            interval: Some(n),
            ..d
        }),
        Part::Bounded(b) if d.bound.is_none() => Some(Draft {
            bound: Some(b),
            ..d
        }),
        Part::Days(n) if d.freq == Freq::Weekly && d.days.is_none() => Some(Draft {
            days: Some(n),
            ..d
        }),
        Part::Day(n) if d.freq == Freq::Monthly && d.day.is_none() => Some(Draft {
            day: Some(n),
            ..d
        }),
        Part::Monday if !d.monday => Some(Draft { monday: true, ..d }),
        _ => None,
    }
}

// The rule, when all parts are in their places.
pub(crate) fn rule_in(d: Draft) -> Rule
    ensures { result ≡ rule_in d }
{
    Rule {
        freq: d.freq,
        interval: d.interval.unwrap_or(1),
        bound: d.bound.unwrap_or(Bound::Endless),
        days: d.days.unwrap_or(0),
        day: d.day.unwrap_or(0),
    }
}

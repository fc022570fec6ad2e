// One part of a rule: a name and its value.
ghost use Rattle.std.specs.Prelude.{◌≡◌, ◌≤◌, length, drop, true, false, MatchOption};
ghost use Rattle.rules.specs.Numbers.{number_to, without_plus};
ghost use Rattle.rules.specs.Days.{day_bit, days_in};
ghost use Rattle.rules.specs.Untils.{count_in, year_at, day_in, moment_at, moment_in, until_in};
ghost use Rattle.rules.specs.Parts.{named, week_part, month_part, day_part, until_part, count_part, part_of};

use super::Bound;
use calendar::moments::{Moment, valid_date};
use digits::digit::{is_digit, two, with_digit};
use digits::form::of_form;

// The weekdays in the order of their bits.
const WEEKDAYS: [[u8; 2]; 7] = [*b"MO", *b"TU", *b"WE", *b"TH", *b"FR", *b"SA", *b"SU"];

// A part with its value.
#[derive(Clone, Copy)]
pub enum Part {
    Interval(u32),
    Bounded(Bound),
    Days(u32),
    Day(u32),
    Monday,
}

// The number that digits say, if it is one from 1 to the most that is taken.
fn number(s: &[u8], most: u32) -> Option<u32>
    ensures { result ≡ number_to most s.now }
{
    let mut v: u64 = 0;
    for b in s {
        if !is_digit(*b) {
            return None;
        }
        v = with_digit(v, *b);
    }
    if 0 < v && v <= u64::from(most) {
        Some(v as u32)
    } else {
        None
    }
}

// A text without the plus in front, if there is one.
fn without_plus(s: &[u8]) -> &[u8]
    ensures { result.now ≡ without_plus s.now }
{
    s.strip_prefix(b"+").unwrap_or(s)
}

// The bit of a weekday, Monday's the lowest.
#[tactic(auto, unfolding(crate::specs::Days::day_bit))]
fn day_bit(s: &[u8]) -> Option<u32>
    ensures { result ≡ day_bit s.now }
{
    let place = WEEKDAYS.iter().position(|day| of_form(day, s))?;
    Some(1 << place)
}

// The bits of a list of weekdays.
fn days_in(s: &[u8]) -> Option<u32>
    ensures { result ≡ days_in s.now }
{
    let mut bits: u32 = 0;
    for day in s.split(|b| *b == b',') {
        bits |= day_bit(day)?;
    }
    Some(bits)
}

// COUNT's bound.
#[tactic(auto, unfolding(crate::specs::Untils::count_in))]
fn count_in(s: &[u8]) -> Option<Bound>
    ensures { result ≡ count_in s.now }
{
    Some(Bound::Count(number(s, u32::MAX)?))
}

// The year of a date.
fn year_at(s: &[u8]) -> u32
    requires { 8 ≤ length s.now }
    ensures { result ≡ year_at s.now }
{
    100 * two(s, 0) + two(s, 2)
}

// A date as UNTIL, if it exists.
fn day_in(s: &[u8]) -> Option<Bound>
    requires { 8 ≤ length s.now }
    ensures { result ≡ day_in s.now }
{
    let year = year_at(s);
    let month = two(s, 4);
    let day = two(s, 6);
    if valid_date(year, month, day) {
        Some(Bound::UntilDay(year, month, day))
    } else {
        None
    }
}

// The numbers of a date-time in their places.
fn moment_at(s: &[u8]) -> Moment
    requires { 15 ≤ length s.now }
    ensures { result ≡ moment_at s.now }
{
    let date = Moment::first().with_date(year_at(s), two(s, 4), two(s, 6));
    date.with_time(two(s, 9), two(s, 11), two(s, 13), 0)
}

// A date-time as UNTIL, if it exists.
fn moment_in(s: &[u8]) -> Option<Bound>
    requires { 15 ≤ length s.now }
    ensures { result ≡ moment_in s.now }
{
    let moment = moment_at(s);
    if moment.valid() {
        Some(Bound::UntilMoment(moment))
    } else {
        None
    }
}

// UNTIL's bound.
#[tactic(auto, unfolding(crate::specs::Untils::until_in))]
fn until_in(s: &[u8]) -> Option<Bound>
    ensures { result ≡ until_in s.now }
{
    if of_form(b"00000000", s) {
        day_in(s)
    } else if of_form(b"00000000T000000", s) {
        moment_in(s)
    } else {
        None
    }
}

// The value of a part that begins with a name and its "=".
fn value_of<'a>(name: &[u8], part: &'a [u8]) -> Option<&'a [u8]>
    ensures { MatchOption result (named name.now part.now ≡ false) (λ v. (named name.now part.now ≡ true) × (v.now ≡ drop (length name.now) part.now)) }
{
    let (front, value) = part.split_at_checked(name.len())?;
    if of_form(name, front) {
        Some(value)
    } else {
        None
    }
}

// WKST, only as Monday.
fn week_part(part: &[u8]) -> Option<Part>
    ensures { result ≡ week_part part.now }
{
    if of_form(b"WKST=MO", part) {
        Some(Part::Monday)
    } else {
        None
    }
}

// BYMONTHDAY, or what is behind it in the list of parts.
fn month_part(part: &[u8]) -> Option<Part>
    ensures { result ≡ month_part part.now }
{
    match value_of(b"BYMONTHDAY=", part) {
        Some(value) => Some(Part::Day(number(without_plus(value), 31)?)),
        None => week_part(part),
    }
}

// BYDAY, or what is behind it in the list of parts.
fn day_part(part: &[u8]) -> Option<Part>
    ensures { result ≡ day_part part.now }
{
    match value_of(b"BYDAY=", part) {
        Some(value) => Some(Part::Days(days_in(value)?)),
        None => month_part(part),
    }
}

// UNTIL, or what is behind it in the list of parts.
fn until_part(part: &[u8]) -> Option<Part>
    ensures { result ≡ until_part part.now }
{
    match value_of(b"UNTIL=", part) {
        Some(value) => Some(Part::Bounded(until_in(value)?)),
        None => day_part(part),
    }
}

// COUNT, or what is behind it in the list of parts.
fn count_part(part: &[u8]) -> Option<Part>
    ensures { result ≡ count_part part.now }
{
    match value_of(b"COUNT=", part) {
        Some(value) => Some(Part::Bounded(count_in(value)?)),
        None => until_part(part),
    }
}

// A part by its name, with its value.
#[tactic(auto, unfolding(crate::specs::Parts::part_of))]
pub(crate) fn part_of(part: &[u8]) -> Option<Part>
    ensures { result ≡ part_of part.now }
{
    match value_of(b"INTERVAL=", part) {
        Some(value) => Some(Part::Interval(number(value, 999)?)),
        None => count_part(part),
    }
}

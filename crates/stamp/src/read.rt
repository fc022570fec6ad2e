// A text read as a stamp.
ghost use Rattle.std.specs.Prelude.{◌≡◌, [], ◌∷◌, ◌≤◌, length};
ghost use Rattle.stamp.specs.Grammar.{date_time, is_of};
ghost use Rattle.stamp.specs.Stamps.{offset_place, fraction_digit, millisecond_in, west_of, offset_in, offset_exists, stamp_at};
ghost use Rattle.stamp.specs.Stamps.{moment_exists, in_years, judged, stamp_of, stamp_answer};

use super::{Offset, Stamp};
use calendar::fixed::moment_in;
use calendar::moments::{Moment, valid_day, valid_time};
use digits::digit::{two, value};
use digits::form::of_form;
use refusals::Reason;

// True for a text of one of three forms.
#[tactic(auto, unfolding(crate::specs::Grammar::is_of))]
fn of_three(first: &[u8], second: &[u8], third: &[u8], text: &[u8]) -> bool
    ensures { result ≡ is_of (first.now ∷ second.now ∷ third.now ∷ []) text.now }
{
    of_form(first, text) || of_form(second, text) || of_form(third, text)
}

// True for a text of the grammar: without a fraction, or with one of one to three digits, and with each of three offsets. The forms stand
// in calls and in no table: an archive for 32-bit pointers takes no constants that hold pointers (bindings/archive).
#[tactic(auto, using(crate::proofs::Grammar::by_fraction))]
fn is_date_time(text: &[u8]) -> bool
    ensures { result ≡ is_of date_time text.now }
{
    of_three(
        b"0000-00-00T00:00:00Z",
        b"0000-00-00T00:00:00+00:00",
        b"0000-00-00T00:00:00-00:00",
        text,
    ) || of_three(
        b"0000-00-00T00:00:00.0Z",
        b"0000-00-00T00:00:00.0+00:00",
        b"0000-00-00T00:00:00.0-00:00",
        text,
    ) || of_three(
        b"0000-00-00T00:00:00.00Z",
        b"0000-00-00T00:00:00.00+00:00",
        b"0000-00-00T00:00:00.00-00:00",
        text,
    ) || of_three(
        b"0000-00-00T00:00:00.000Z",
        b"0000-00-00T00:00:00.000+00:00",
        b"0000-00-00T00:00:00.000-00:00",
        text,
    )
}

// True where the month has the day, and the day the time.
fn moment_exists(t: Moment) -> bool
    ensures { result ≡ moment_exists t }
{
    valid_day(t.year, t.month, t.day) && valid_time(t.hour, t.minute, t.second, t.millisecond)
}

// Where the offset of a text of the grammar begins: its last byte, or its last six.
fn offset_place(text: &[u8]) -> usize
    requires { 20 ≤ length text.now }
    ensures { (result ≡ offset_place text.now) × (19 ≤ result) × (result ≤ length text.now) }
{
    text.len() - if text.len() < 25 { 1 } else { 6 }
}

// Digit i behind a fraction's point, 0 where there is none.
fn fraction_digit(fraction: &[u8], i: usize) -> u32
    ensures { (result ≡ fraction_digit fraction.now i) × (result ≤ 207) }
{
    match fraction.get(i) {
        Some(digit) => value(*digit),
        None => 0,
    }
}

// The milliseconds of a fraction.
fn millisecond_in(fraction: &[u8]) -> u32
    ensures { result ≡ millisecond_in fraction.now }
{
    100 * fraction_digit(fraction, 1)
        + 10 * fraction_digit(fraction, 2)
        + fraction_digit(fraction, 3)
}

// True where an offset's hours and minutes exist, or there are none.
fn offset_exists(offset: &[u8]) -> bool
    ensures { result ≡ offset_exists offset.now }
{
    offset.len() < 6 || valid_time(two(offset, 1), two(offset, 4), 0, 0)
}

// 1 for a minus.
fn west_of(sign: u8) -> u32
    ensures { result ≡ west_of sign }
{
    u32::from(sign == b'-')
}

// What an offset says.
fn offset_in(offset: &[u8]) -> Offset
    ensures { result ≡ offset_in offset.now }
{
    if offset.len() < 6 {
        Offset {
            west: 0,
            minutes: 0,
        }
    } else {
        Offset {
            west: west_of(offset[0]),
            minutes: 60 * two(offset, 1) + two(offset, 4),
        }
    }
}

// The numbers of a text in their places, with the offset from p on.
fn stamp_at(text: &[u8], p: usize) -> Stamp
    requires { (19 ≤ p) × (p ≤ length text.now) }
    ensures { result ≡ stamp_at p text.now }
{
    let moment = moment_in(text, millisecond_in(&text[19..p]));
    let offset = offset_in(&text[p..]);
    Stamp { moment, offset }
}

// A stamp whose numbers exist, if its year is not 0000.
fn in_years(stamp: Stamp) -> Result<Stamp, Reason>
    ensures { stamp_answer result ≡ in_years stamp }
{
    if stamp.moment.year == 0 {
        Err(Reason::Outside)
    } else {
        Ok(stamp)
    }
}

// What a text of the grammar says: its numbers are judged before its year.
fn judge(text: &[u8]) -> Result<Stamp, Reason>
    requires { 20 ≤ length text.now }
    ensures { stamp_answer result ≡ judged text.now }
{
    let p = offset_place(text);
    let stamp = stamp_at(text, p);
    if moment_exists(stamp.moment) && offset_exists(&text[p..]) {
        in_years(stamp)
    } else {
        Err(Reason::NoStamp)
    }
}

// A text as a stamp: 14 for any other form or an impossible date, time or offset, then 12 for year 0000.
#[tactic(auto, unfolding(crate::specs::Stamps::stamp_of))]
pub fn read_stamp(text: &[u8]) -> Result<Stamp, Reason>
    ensures { stamp_answer result ≡ stamp_of text.now }
{
    if is_date_time(text) {
        judge(text)
    } else {
        Err(Reason::NoStamp)
    }
}

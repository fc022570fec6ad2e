// The reader of a whole phrase's lexemes: links, outermost first, around one base. Their durations are passed here, and read at the end.
ghost use Rattle.std.specs.Prelude.{◌≡◌, ◌||◌, [], ◌+◌, ◌≤◌, max, length};
ghost use Rattle.lexer.specs.Lexemes.{Comma};
ghost use Rattle.numbers.specs.Slices.{is_at, one_if};
ghost use Rattle.dates.specs.Parsed.{parsed_found};
ghost use Rattle.dates.specs.Durations.{Duration};
ghost use Rattle.phrase.specs.Tree.{now as bare};
ghost use Rattle.phrase.specs.DateTimes.{time_behind_of, with_duration_of, timed_turn_of, undated_turn_of, turn_of, date_time_of};
ghost use Rattle.phrase.specs.Outlines.{turn_answer, outline, outline_answer, kept};

use super::chain::Base;
use dates::duration::read_duration;
use dates::time::{Time, read_time};
use expressions::expr::{Expr, read_expr};
use lexer::lexeme::{AFTER, AGO, AT, BEFORE, COMMA, FROM, NOW, ON};
use lexer::reading::Reading;
use numbers::slices::{is_at, rest};
use numbers::{Found, Overflow};

// One turn: a whole reading, with its base, its time and the place of the base's own duration; a duration before now; or a link, behind
// which a datetime is read again. The duration of `Ago` and `Link` stands in front.
#[derive(Clone, Copy)]
pub enum Turn {
    Whole(Base, Time, usize),
    Ago,
    Link,
}

// What is read of a whole phrase: the lexemes taken, m links in front of a base, and the place of the base's own duration, from the
// base's first lexeme on.
#[derive(Clone, Copy)]
pub struct Outline {
    pub taken: usize,
    pub base: Base,
    pub time: Time,
    pub own: usize,
    pub m: usize,
}

// 1 for a comma or an x at t, which is taken then, and else 0.
fn take_comma_or(l: &[u64], t: usize, x: u64) -> usize
    ensures value { result ≡ one_if (is_at l.now t Comma || is_at l.now t x) }
    ensures upper_bound { (result ≤ 1) × (t + result ≤ max t (length l.now)) }
{
    usize::from(is_at(l, t, COMMA) || is_at(l, t, x))
}

// [, | at] [<time>] behind t lexemes
#[tactic(auto, unfolding(crate::specs::DateTimes::time_behind_of))]
fn time_behind(reading: Reading, l: &[u64], t: usize) -> Result<(Time, usize), Overflow>
    requires { t ≤ length l.now }
    ensures { parsed_found result ≡ time_behind_of reading t l.now }
{
    let s = t + take_comma_or(l, t, AT);
    let Some((time, u)) = read_time(reading, rest(l, s))? else {
        return Ok((Time::Empty, s));
    };
    Ok((time, s + u))
}

// after | from | before | ago behind a duration of t lexemes, whichever that is, in either reading
#[tactic(auto, unfolding(crate::specs::DateTimes::with_duration_of))]
fn with_duration(l: &[u64], t: usize) -> Found<Turn>
    ensures { (reading : Reading) (dur : Duration) → result ≡ turn_answer reading l.now (with_duration_of dur t l.now) }
{
    if is_at(l, t, AFTER) || is_at(l, t, FROM) || is_at(l, t, BEFORE) {
        return Ok(Some((Turn::Link, t + 1)));
    }
    if is_at(l, t, AGO) {
        return Ok(Some((Turn::Ago, t + 1)));
    }
    Ok(None)
}

// <time> [, | on] [<date_expr>]
#[tactic(auto, unfolding(crate::specs::DateTimes::timed_turn_of))]
fn read_timed(reading: Reading, l: &[u64]) -> Found<Turn>
    ensures { result ≡ turn_answer reading l.now (timed_turn_of reading l.now) }
{
    let Some((time, t)) = read_time(reading, l)? else {
        return Ok(None);
    };
    let s = t + take_comma_or(l, t, ON);
    let Some(dated) = read_expr(reading, rest(l, s))? else {
        return Ok(Some((Turn::Whole(Base::TimeDate(Expr::Empty), time, s), s)));
    };
    Ok(Some((
        Turn::Whole(Base::TimeDate(dated.expr), time, s + dated.own),
        s + dated.taken,
    )))
}

// A duration and its connection, or a bare time.
#[tactic(auto, unfolding(crate::specs::DateTimes::undated_turn_of))]
fn read_undated(reading: Reading, l: &[u64]) -> Found<Turn>
    ensures { result ≡ turn_answer reading l.now (undated_turn_of reading l.now) }
{
    match read_duration(reading, l)? {
        Some(span) => with_duration(l, span.taken),
        None => read_timed(reading, l),
    }
}

// One turn of DateTime::parse: now, a dated phrase, a duration, or a bare time last.
#[tactic(auto, unfolding(crate::specs::DateTimes::turn_of))]
fn read_turn(reading: Reading, l: &[u64]) -> Found<Turn>
    ensures { result ≡ turn_answer reading l.now (turn_of reading l.now) }
{
    if is_at(l, 0, NOW) {
        return Ok(Some((Turn::Whole(Base::Now, Time::Empty, 0), 1)));
    }
    let Some(dated) = read_expr(reading, l)? else {
        return read_undated(reading, l);
    };
    let (time, n) = time_behind(reading, l, dated.taken)?;
    Ok(Some((Turn::Whole(Base::DateTime(dated.expr), time, dated.own), n)))
}

// The outline of now behind m links, with nothing of what was read.
fn bare(taken: usize, m: usize) -> Outline
    ensures { (reading : Reading) → result ≡ outline reading taken m [] bare }
{
    Outline {
        taken,
        base: Base::Now,
        time: Time::Empty,
        own: 0,
        m,
    }
}

// DateTime::parse, turn after turn: behind a link a datetime is read again.
fn read_date_time(reading: Reading, l: &[u64]) -> Result<Option<Outline>, Overflow>
    ensures { result ≡ outline_answer reading l.now (date_time_of reading l.now) }
{
    let mut taken: usize = 0;
    let mut m: usize = 0;
    loop {
        let Some((turn, t)) = read_turn(reading, rest(l, taken))? else {
            return Ok(None);
        };
        taken += t;
        match turn {
            Turn::Whole(base, time, own) => {
                return Ok(Some(Outline {
                    taken,
                    base,
                    time,
                    own,
                    m,
                }));
            }
            Turn::Ago => {
                return Ok(Some(bare(taken, m + 1)));
            }
            Turn::Link => {
                m += 1;
            }
        }
    }
}

// The same, kept only where at least n lexemes are taken.
pub(crate) fn read_outline(
    reading: Reading,
    l: &[u64],
    n: usize,
) -> Result<Option<Outline>, Overflow>
    ensures { result ≡ outline_answer reading l.now (kept n (date_time_of reading l.now)) }
{
    match read_date_time(reading, l)? {
        Some(o) if o.taken < n => Ok(Some(bare(o.taken, 0))),
        read => Ok(read),
    }
}

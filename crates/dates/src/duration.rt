// The readers of durations: a part is a number or an article with its unit, and parts are joined by "and".
ghost use Rattle.std.specs.Prelude.{◌≡◌, ◌+◌, ◌*◌, ◌≤◌, ◌<◌, length};
ghost use Rattle.dates.specs.Parsed.{parsed, Took};
ghost use Rattle.dates.specs.Durations.{is_sub_daily_unit, is_sub_daily_part, specific_of, article_of, concrete_of, duration_of};
ghost use Rattle.dates.specs.Durations.{pushed, taken_answer, TakenCounted, rowed};

use super::units::{Unit, is_article, read_unit};
use lexer::lexeme::AND;
use lexer::reading::Reading;
use numbers::slices::{is_at, rest};
use numbers::{Found, Overflow, num};

// One part of a duration: `Duration::Article`, `Duration::Specific`.
#[derive(Clone, Copy)]
pub enum Part {
    Article(Unit),
    Specific(Unit, u32),
}

// An array in a struct holds structs, so each part stands in one.
#[derive(Clone, Copy)]
pub struct Slot {
    pub part: Part,
}

// A row of parts: 64 lexemes have at most 21.
#[derive(Clone, Copy)]
pub struct Parts {
    pub n: u8,
    pub items: [Slot; 21],
}

// The lexemes that a duration takes, and whether it has hours or minutes.
#[derive(Clone, Copy)]
pub struct Span {
    pub taken: usize,
    pub sub_daily: bool,
}

// A row with the parts of a duration, and where that ends.
#[derive(Clone, Copy)]
pub struct Rowed {
    pub parts: Parts,
    pub end: usize,
}

// Duration::is_sub_daily, of a unit
pub fn is_sub_daily_unit(u: Unit) -> bool
    ensures { result ≡ is_sub_daily_unit u }
{
    matches!(u, Unit::Hour | Unit::Minute)
}

// Duration::is_sub_daily, of a part
fn is_sub_daily(p: Part) -> bool
    ensures { result ≡ is_sub_daily_part p }
{
    match p {
        Part::Article(u) | Part::Specific(u, _) => is_sub_daily_unit(u),
    }
}

// <num> <unit>
#[tactic(auto, using(crate::proofs::Durations::specific_took), unfolding(crate::specs::Durations::specific_of))]
fn read_specific(reading: Reading, l: &[u64]) -> Found<Part>
    ensures result_value { parsed result ≡ specific_of reading l.now }
    ensures took { Took (parsed result) 2 (length l.now) }
{
    let Some(n) = num(reading, l)? else {
        return Ok(None);
    };
    let Some(u) = read_unit(rest(l, n.taken)) else {
        return Ok(None);
    };
    Ok(Some((Part::Specific(u, n.value), n.taken + 1)))
}

// <article> <unit>
#[tactic(auto, using(crate::proofs::Durations::article_took), unfolding(crate::specs::Durations::article_of))]
fn read_article(l: &[u64]) -> Found<Part>
    ensures result_value { parsed result ≡ article_of l.now }
    ensures took { Took (parsed result) 2 (length l.now) }
{
    if !is_article(l) {
        return Ok(None);
    }
    let Some(u) = read_unit(rest(l, 1)) else {
        return Ok(None);
    };
    Ok(Some((Part::Article(u), 2)))
}

// Duration::parse_concrete
#[tactic(auto, using(crate::proofs::Durations::concrete_took), unfolding(crate::specs::Durations::concrete_of))]
fn read_concrete(reading: Reading, l: &[u64]) -> Found<Part>
    ensures result_value { parsed result ≡ concrete_of reading l.now }
    ensures took { Took (parsed result) 2 (length l.now) }
{
    if let Some(part) = read_specific(reading, l)? {
        return Ok(Some(part));
    }
    read_article(l)
}

// One part more.
fn push(mut parts: Parts, part: Part) -> Parts
    requires { parts.n < 21 }
    ensures { result ≡ pushed parts part }
{
    parts.items[usize::from(parts.n)] = Slot { part };
    parts.n += 1;
    parts
}

// Duration::parse, without its parts: an "and" with no part behind it is not taken.
pub fn read_duration(reading: Reading, l: &[u64]) -> Result<Option<Span>, Overflow>
    ensures value { result ≡ taken_answer (duration_of reading l.now) }
    ensures taken_counted { TakenCounted result (length l.now) }
{
    let Some((part, t)) = read_concrete(reading, l)? else {
        return Ok(None);
    };
    let mut taken = t;
    let mut sub_daily = is_sub_daily(part);
    while is_at(l, taken, AND) {
        let Some((next, u)) = read_concrete(reading, rest(l, taken + 1))? else {
            return Ok(Some(Span { taken, sub_daily }));
        };
        taken += 1 + u;
        sub_daily |= is_sub_daily(next);
    }
    Ok(Some(Span { taken, sub_daily }))
}

// The parts of the duration at the front of l behind those of a row, where 64 lexemes leave room for them. With no duration there, the row.
pub fn with_parts(reading: Reading, l: &[u64], parts: Parts) -> Rowed
    requires { 3 * parts.n + length l.now ≤ 64 }
    ensures { result ≡ rowed parts (duration_of reading l.now) }
{
    let mut row = parts;
    let mut end: usize = 0;
    let mut at: usize = 0;
    loop {
        match read_concrete(reading, rest(l, at)) {
            Ok(Some((part, t))) => {
                row = push(row, part);
                end = at + t;
            }
            Ok(None) => {
                return Rowed { parts: row, end };
            }
            Err(_) => {
                return Rowed { parts, end: 0 };
            }
        }
        if is_at(l, end, AND) {
            at = end + 1;
        } else {
            return Rowed { parts: row, end };
        }
    }
}

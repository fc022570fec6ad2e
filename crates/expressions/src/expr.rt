// The readers of date expressions.
ghost use Rattle.std.specs.Prelude.{◌≡◌, ℕ, ◌+◌, ◌≤◌, length, drop};
ghost use Rattle.dates.specs.Parsed.{is, and_then};
ghost use Rattle.dates.specs.Durations.{Duration, is_sub_daily};
ghost use Rattle.dates.specs.Dates.{date_of};
ghost use Rattle.expressions.specs.Tree.{after};
ghost use Rattle.expressions.specs.DateExprs.{relative, ago, inside, stray, weekday_in, in_tail_of, duration_tail_of, tail_of, with_duration_of};
ghost use Rattle.expressions.specs.DateExprs.{relative_expr_of, weekday_expr_of, undated_of, date_expr_of};
ghost use Rattle.expressions.specs.Shapes.{shape, has_duration};
ghost use Rattle.expressions.specs.ExprAnswers.{tailed_answer, answer_at, weekday_place, undated_place, expr_answer, ExprCounted};

use dates::date::{Date, read_date};
use dates::duration::{Span, read_duration};
use dates::units::{RelativeSpecifier, Unit, read_specifier, read_unit, read_weekday};
use lexer::lexeme::{AFTER, AGO, FROM, IN};
use lexer::reading::Reading;
use numbers::Overflow;
use numbers::slices::{is_at, rest};

// `enum DateExpr` without its durations, whose parts stand in the reading; a weekday is a number, Monday 0.
#[derive(Clone, Copy)]
pub enum Expr {
    Date(Date),
    DateRelative(Date, RelativeSpecifier, Unit),
    DateExpressionAfter(Date),
    DateExpressionBefore(Date),
    UnitRelative(RelativeSpecifier, Unit),
    RelativeWeekday(RelativeSpecifier, u32),
    WeekdayRelative(u32, RelativeSpecifier, Unit),
    WeekdayExpressionBefore(u32),
    WeekdayExpressionAfter(u32),
    Before(Date),
    After(Date),
    Weekday(u32),
    Empty,
}

// What a tail stands behind.
#[derive(Clone, Copy)]
enum Head {
    Date(Date),
    Weekday(u32),
}

// A date expression, the lexemes taken, and the place of the first lexeme of its duration, 0 where it has none.
#[derive(Clone, Copy)]
pub struct Dated {
    pub expr: Expr,
    pub taken: usize,
    pub own: usize,
}

// Whether a duration belongs to it.
pub fn has_duration(e: Expr) -> bool
    ensures { result ≡ has_duration e }
{
    matches!(
        e,
        Expr::DateExpressionAfter(_)
            | Expr::DateExpressionBefore(_)
            | Expr::WeekdayExpressionBefore(_)
            | Expr::WeekdayExpressionAfter(_)
            | Expr::Before(_)
            | Expr::After(_)
    )
}

// A head of t lexemes, and a tail that is given up, which ends at s: behind a date the count is rolled back.
fn stray(h: Head, t: usize, s: usize) -> Dated
    ensures { (reading : Reading) (u : ℕ) → s ≡ t + u → Ok (Some result) ≡ tailed_answer reading h t (is stray u) }
{
    let (expr, taken) = match h {
        Head::Date(d) => (Expr::Date(d), t),
        Head::Weekday(w) => (Expr::Weekday(w), s),
    };
    Dated {
        expr,
        taken,
        own: 0,
    }
}

// A head and a relative tail, which ends at s.
fn relative(h: Head, spec: RelativeSpecifier, unit: Unit, s: usize) -> Dated
    ensures { (reading : Reading) (t u : ℕ) → s ≡ t + u → Ok (Some result) ≡ tailed_answer reading h t (is (relative spec unit) u) }
{
    let expr = match h {
        Head::Date(d) => Expr::DateRelative(d, spec, unit),
        Head::Weekday(w) => Expr::WeekdayRelative(w, spec, unit),
    };
    Dated {
        expr,
        taken: s,
        own: 0,
    }
}

// A head and a tail with "ago", whose duration begins at t, and which ends at s.
fn ago(h: Head, t: usize, s: usize) -> Dated
    ensures { (reading : Reading) (dur : Duration) (u : ℕ) → s ≡ t + u → Ok (Some result) ≡ tailed_answer reading h t (is (ago dur) u) }
{
    let expr = match h {
        Head::Date(d) => Expr::DateExpressionBefore(d),
        Head::Weekday(w) => Expr::WeekdayExpressionBefore(w),
    };
    Dated {
        expr,
        taken: s,
        own: t,
    }
}

// A weekday with "in" and a duration: it goes back in the first reading.
fn weekday_in(reading: Reading, w: u32) -> Expr
    ensures { (dur : Duration) → result ≡ shape (weekday_in reading w dur) }
{
    match reading {
        Reading::First => Expr::WeekdayExpressionBefore(w),
        Reading::Second => Expr::WeekdayExpressionAfter(w),
    }
}

// A head and a tail with "in", whose duration begins at p, and which ends at s.
fn inside(reading: Reading, h: Head, p: usize, s: usize) -> Dated
    ensures { (dur : Duration) (t u : ℕ) → p ≡ t + 1 → s ≡ t + u → Ok (Some result) ≡ tailed_answer reading h t (is (inside dur) u) }
{
    let expr = match h {
        Head::Date(d) => Expr::DateExpressionAfter(d),
        Head::Weekday(w) => weekday_in(reading, w),
    };
    Dated {
        expr,
        taken: s,
        own: p,
    }
}

// in <duration>, unless that is sub-daily, behind a head of t lexemes
#[tactic(auto, unfolding(crate::specs::DateExprs::in_tail_of))]
fn read_in_tail(reading: Reading, l: &[u64], h: Head, t: usize) -> Result<Option<Dated>, Overflow>
    requires { t ≤ length l.now }
    ensures { result ≡ tailed_answer reading h t (in_tail_of reading (drop t l.now)) }
{
    let tail = rest(l, t);
    if !is_at(tail, 0, IN) {
        return Ok(Some(stray(h, t, t)));
    }
    let p = t + 1;
    match read_duration(reading, rest(tail, 1))? {
        Some(span) if !span.sub_daily => Ok(Some(inside(reading, h, p, p + span.taken))),
        _ => Ok(Some(stray(h, t, p))),
    }
}

// <duration> ago, unless that is sub-daily; else in <duration>
#[tactic(auto, unfolding(crate::specs::DateExprs::duration_tail_of))]
fn read_duration_tail(
    reading: Reading,
    l: &[u64],
    h: Head,
    t: usize,
) -> Result<Option<Dated>, Overflow>
    requires { t ≤ length l.now }
    ensures { result ≡ tailed_answer reading h t (duration_tail_of reading (drop t l.now)) }
{
    let tail = rest(l, t);
    let Some(span) = read_duration(reading, tail)? else {
        return read_in_tail(reading, l, h, t);
    };
    let s = t + span.taken;
    if is_at(tail, span.taken, AGO) && !span.sub_daily {
        return Ok(Some(ago(h, t, s + 1)));
    }
    Ok(Some(stray(h, t, s)))
}

// <relative_specifier> <unit> | <duration> ago | in <duration>, behind a head of t lexemes; not looked for where no lexeme is left
#[tactic(auto, using(crate::proofs::ExprAnswers::tail_none), unfolding(crate::specs::DateExprs::tail_of))]
fn read_tail(reading: Reading, l: &[u64], h: Head, t: usize) -> Result<Option<Dated>, Overflow>
    requires { t ≤ length l.now }
    ensures { result ≡ tailed_answer reading h t (tail_of reading (drop t l.now)) }
{
    if l.len() <= t {
        return Ok(Some(stray(h, t, t)));
    }
    let tail = rest(l, t);
    let Some(spec) = read_specifier(tail) else {
        return read_duration_tail(reading, l, h, t);
    };
    let Some(unit) = read_unit(rest(tail, 1)) else {
        return Ok(Some(stray(h, t, t + 1)));
    };
    Ok(Some(relative(h, spec, unit, t + 2)))
}

// after <date> | from <date>: the date behind a duration and its connection, which end at t
fn read_after(reading: Reading, l: &[u64], t: usize) -> Result<Option<Dated>, Overflow>
    requires { t ≤ length l.now }
    ensures { (dur : Duration) → result ≡ answer_at 0 (and_then (date_of reading (drop t l.now)) (λ d u. is (after dur d) (t + u))) }
{
    let Some((d, u)) = read_date(reading, rest(l, t))? else {
        return Ok(None);
    };
    Ok(Some(Dated {
        expr: Expr::After(d),
        taken: t + u,
        own: 0,
    }))
}

// What stands behind a duration; a sub-daily one is given up.
#[tactic(auto, unfolding(crate::specs::DateExprs::with_duration_of))]
fn with_duration(reading: Reading, l: &[u64], span: Span) -> Result<Option<Dated>, Overflow>
    requires { span.taken ≤ length l.now }
    ensures { (dur : Duration) → is_sub_daily dur ≡ span.sub_daily → result ≡ answer_at 0 (with_duration_of reading dur span.taken l.now) }
{
    let t = span.taken;
    if span.sub_daily {
        return Ok(None);
    }
    if is_at(l, t, AGO) {
        return Ok(Some(Dated {
            expr: Expr::Before(Date::Empty),
            taken: t + 1,
            own: 0,
        }));
    }
    if is_at(l, t, AFTER) || is_at(l, t, FROM) {
        return read_after(reading, l, t + 1);
    }
    Ok(None)
}

// <relative_specifier> <weekday> | <relative_specifier> <unit>
#[tactic(auto, unfolding(crate::specs::DateExprs::relative_expr_of))]
fn read_relative(l: &[u64]) -> Option<Dated>
    ensures { Ok result ≡ answer_at 0 (relative_expr_of l.now) }
{
    let spec = read_specifier(l)?;
    let after = rest(l, 1);
    let expr = match read_weekday(after) {
        Some(w) => Expr::RelativeWeekday(spec, w),
        None => Expr::UnitRelative(spec, read_unit(after)?),
    };
    Some(Dated {
        expr,
        taken: 2,
        own: 0,
    })
}

// A weekday and its tail, or a relative specifier.
#[tactic(auto, unfolding(crate::specs::DateExprs::weekday_expr_of))]
fn read_weekday_expr(reading: Reading, l: &[u64]) -> Result<Option<Dated>, Overflow>
    ensures { result ≡ answer_at (weekday_place reading l.now) (weekday_expr_of reading l.now) }
{
    match read_weekday(l) {
        Some(w) => read_tail(reading, l, Head::Weekday(w), 1),
        None => Ok(read_relative(l)),
    }
}

// A duration and what stands behind it, or what begins with a weekday or a relative specifier.
#[tactic(auto, unfolding(crate::specs::DateExprs::undated_of))]
fn read_undated(reading: Reading, l: &[u64]) -> Result<Option<Dated>, Overflow>
    ensures { result ≡ answer_at (undated_place reading l.now) (undated_of reading l.now) }
{
    match read_duration(reading, l)? {
        Some(span) => with_duration(reading, l, span),
        None => read_weekday_expr(reading, l),
    }
}

// DateExpr::parse: its shape, and where its duration begins
pub fn read_expr(reading: Reading, l: &[u64]) -> Result<Option<Dated>, Overflow>
    ensures value { result ≡ expr_answer reading l.now (date_expr_of reading l.now) }
    ensures expr_counted { ExprCounted result (length l.now) }
{
    match read_date(reading, l)? {
        Some((d, t)) => read_tail(reading, l, Head::Date(d), t),
        None => read_undated(reading, l),
    }
}

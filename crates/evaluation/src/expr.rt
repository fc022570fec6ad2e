// Date expressions at a now. Their durations are the parts of the reading from `own` on.
ghost use Rattle.std.specs.Prelude.{◌≡◌, true, ◌≤◌, ◌<◌};
ghost use Rattle.std.proofs.Math.Seq.{slice};
ghost use Rattle.calendar.specs.Moments.{IsMoment, reached_of, Valid};
ghost use Rattle.expressions.specs.Shapes.{expr_from, has_duration};
ghost use Rattle.phrase.specs.Chains.{row_duration};
ghost use Rattle.evaluation.specs.Evaluate.{by_year, is_year, is_week, is_month_and_day};
ghost use Rattle.evaluation.specs.Evaluate.{date_relative_at, unit_relative_at, weekday_relative_at, date_expr_at};

use super::date::date_at;
use super::step::{duration_step, row, unit_step};
use super::weekday::{back_to, forward_to, in_week};
use calendar::moments::Moment;
use dates::date::Date;
use dates::duration::{Parts, is_sub_daily_unit};
use dates::units::{RelativeSpecifier, Unit};
use expressions::expr::Expr;
use refusals::Reason;

// A date moved by a year, by its specifier.
fn by_year(specifier: RelativeSpecifier, t: Moment) -> Result<Moment, Reason>
    requires { IsMoment t }
    ensures result_value { reached_of result ≡ by_year specifier t }
    ensures valid { Valid (reached_of result) }
{
    match specifier {
        RelativeSpecifier::This => Ok(t),
        RelativeSpecifier::Next => t.years_step(false, 1),
        RelativeSpecifier::Last => t.years_step(true, 1),
    }
}

// Is the unit a year?
pub fn is_year(unit: Unit) -> bool
    ensures { result ≡ is_year unit }
{
    matches!(unit, Unit::Year)
}

// Is the unit a week?
pub fn is_week(unit: Unit) -> bool
    ensures { result ≡ is_week unit }
{
    matches!(unit, Unit::Week)
}

// Is it a date with no year of its own?
pub fn is_month_and_day(date: Date) -> bool
    ensures { result ≡ is_month_and_day date }
{
    matches!(date, Date::MonthNumDay(_, _) | Date::MonthDay(_, _))
}

// A date of a year before or after: month and day stated, and the unit a year, else 9.
fn date_relative(
    date: Date,
    specifier: RelativeSpecifier,
    unit: Unit,
    t: Moment,
) -> Result<Moment, Reason>
    requires { IsMoment t }
    ensures result_value { reached_of result ≡ date_relative_at date specifier unit t }
    ensures valid { Valid (reached_of result) }
{
    if is_year(unit) && is_month_and_day(date) {
        by_year(specifier, date_at(date, t)?)
    } else {
        Err(Reason::NoSense)
    }
}

// One unit before or after today; "this", hours and minutes are 9.
fn unit_relative(specifier: RelativeSpecifier, unit: Unit, t: Moment) -> Result<Moment, Reason>
    requires { IsMoment t }
    ensures result_value { reached_of result ≡ unit_relative_at specifier unit t }
    ensures valid { Valid (reached_of result) }
{
    if is_sub_daily_unit(unit) {
        return Err(Reason::NoSense);
    }
    match specifier {
        RelativeSpecifier::Next => unit_step(false, 1, unit, t),
        RelativeSpecifier::Last => unit_step(true, 1, unit, t),
        RelativeSpecifier::This => Err(Reason::NoSense),
    }
}

// A weekday of a week before or after; another unit is 9.
fn weekday_relative(
    w: u32,
    specifier: RelativeSpecifier,
    unit: Unit,
    t: Moment,
) -> Result<Moment, Reason>
    requires { IsMoment t }
    ensures result_value { reached_of result ≡ weekday_relative_at w specifier unit t }
    ensures valid { Valid (reached_of result) }
{
    if is_week(unit) {
        in_week(specifier, w % 7, t)
    } else {
        Err(Reason::NoSense)
    }
}

// DateExpr::to_chrono, at the time of day of t.
pub(crate) fn expr_at(expr: Expr, parts: &Parts, own: u8, t: Moment) -> Result<Moment, Reason>
    requires { IsMoment t × (parts.now.n ≤ 21) × (has_duration expr ≡ true → own < parts.now.n) }
    ensures result_value { reached_of result ≡ date_expr_at (expr_from expr (row_duration (slice own parts.now.n parts.now.items))) t }
    ensures valid { Valid (reached_of result) }
{
    match expr {
        Expr::Date(d) => date_at(d, t),
        Expr::DateRelative(d, s, u) => date_relative(d, s, u, t),
        Expr::DateExpressionAfter(d) | Expr::After(d) => {
            duration_step(false, row(parts, own, parts.n), date_at(d, t)?)
        }
        Expr::DateExpressionBefore(d) | Expr::Before(d) => {
            duration_step(true, row(parts, own, parts.n), date_at(d, t)?)
        }
        Expr::UnitRelative(s, u) => unit_relative(s, u, t),
        Expr::RelativeWeekday(s, w) => in_week(s, w % 7, t),
        Expr::WeekdayRelative(w, s, u) => weekday_relative(w, s, u, t),
        // by the duration, back or on, then the same way to the weekday
        Expr::WeekdayExpressionBefore(w) => {
            back_to(w % 7, duration_step(true, row(parts, own, parts.n), t)?)
        }
        Expr::WeekdayExpressionAfter(w) => {
            forward_to(w % 7, duration_step(false, row(parts, own, parts.n), t)?)
        }
        Expr::Weekday(w) => forward_to(w % 7, t),
        Expr::Empty => Ok(t),
    }
}

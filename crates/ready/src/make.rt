// The steps of a chain.
ghost use Rattle.std.specs.Prelude.{◌≡◌, true, ◌+◌, ◌*◌, ◌≤◌, ◌<◌};
ghost use Rattle.std.proofs.Math.Seq.{slice};
ghost use Rattle.dates.specs.Durations.{size};
ghost use Rattle.expressions.specs.Shapes.{expr_from, has_duration, size_expr};
ghost use Rattle.phrase.specs.Chains.{row_duration, base_of, tree_of, size_tree};
ghost use Rattle.phrase.specs.Formed.{Formed};
ghost use Rattle.steps.specs.Joining.{minutes_of};
ghost use Rattle.steps.specs.Plans.{last_of, begun};
ghost use Rattle.steps.specs.declared.plan.Start.TheVariants.{OnDate};
ghost use Rattle.steps.specs.declared.plan.Step.TheVariants.{By};
ghost use Rattle.ready.specs.Made.{length_move, move_of_part, held, add_duration, add_year, expr_steps, tree_steps};
ghost use Rattle.ready.specs.Made.{date_relative_steps, unit_relative_steps, weekday_relative_steps};
ghost use Rattle.ready.specs.Bounds.{widest, Within, Longer};

use dates::date::Date;
use dates::duration::{Part, Parts, is_sub_daily_unit};
use dates::units::{RelativeSpecifier, Unit};
use evaluation::expr::{is_month_and_day, is_week, is_year};
use expressions::expr::Expr;
use phrase::chain::{Base, Chain};
use steps::plan::{Move, Plan, Start, Step, add, single};

// So many units as a move.
fn length_move(back: bool, k: u32, unit: Unit) -> Move
    ensures { (result ≡ length_move back k unit) × (minutes_of (By result) ≤ widest) }
{
    let n = k as u64;
    match unit {
        Unit::Day => Move::Minutes {
            back,
            count: 1440 * n,
        },
        Unit::Week => Move::Minutes {
            back,
            count: 10080 * n,
        },
        Unit::Hour => Move::Minutes {
            back,
            count: 60 * n,
        },
        Unit::Minute => Move::Minutes { back, count: n },
        Unit::Month => Move::Months { back, count: k },
        Unit::Year => Move::Years { back, count: k },
    }
}

// A part of a duration as a move; an article is one.
fn part_move(back: bool, part: Part) -> Move
    ensures { (result ≡ move_of_part back part) × (minutes_of (By result) ≤ widest) }
{
    match part {
        Part::Article(u) => length_move(back, 1, u),
        Part::Specific(u, k) => length_move(back, k, u),
    }
}

// The parts from one place up to another behind a list, first to last.
fn add_parts(p: Plan, parts: Parts, from: u8, to: u8, back: bool) -> Plan
    requires n_nonzero { (0 < p.n) × (from < to) × (to ≤ 21) × (p.n + to ≤ 24 + from) }
    requires widest_bound { minutes_of (last_of p) + to * widest ≤ (24 + from) * widest }
    ensures value { result ≡ add_duration held back p (row_duration (slice from to parts.items)) }
    ensures longer { Longer p result from to }
{
    let row = &parts.items[from as usize..to as usize];
    let mut q = p;
    for slot in row {
        q = add(q, Step::By(part_move(back, slot.part)));
    }
    q
}

// A year on or back, by the specifier.
fn add_year(start: Plan, specifier: RelativeSpecifier) -> Plan
    requires { Within start 1 }
    ensures { (result ≡ add_year held specifier start) × Within result 2 }
{
    match specifier {
        RelativeSpecifier::This => start,
        RelativeSpecifier::Next => add(
            start,
            Step::By(Move::Years {
                back: false,
                count: 1,
            }),
        ),
        RelativeSpecifier::Last => add(
            start,
            Step::By(Move::Years {
                back: true,
                count: 1,
            }),
        ),
    }
}

// A month and day of a year before or after; another date or unit has no sense.
fn date_relative(date: Date, specifier: RelativeSpecifier, unit: Unit) -> Plan
    ensures { (result ≡ date_relative_steps held date specifier unit) × Within result 2 }
{
    if is_year(unit) && is_month_and_day(date) {
        add_year(single(Start::OnDate(date)), specifier)
    } else {
        single(Start::Senseless)
    }
}

// One unit before or after today; "this", hours and minutes have no sense.
fn unit_relative(specifier: RelativeSpecifier, unit: Unit) -> Plan
    ensures { (result ≡ unit_relative_steps held specifier unit) × Within result 2 }
{
    if is_sub_daily_unit(unit) {
        return single(Start::Senseless);
    }
    let today = single(Start::OnDate(Date::Today));
    match specifier {
        RelativeSpecifier::Next => add(today, Step::By(length_move(false, 1, unit))),
        RelativeSpecifier::Last => add(today, Step::By(length_move(true, 1, unit))),
        RelativeSpecifier::This => single(Start::Senseless),
    }
}

// A weekday of a week before or after; another unit has no sense.
fn weekday_relative(w: u32, specifier: RelativeSpecifier, unit: Unit) -> Plan
    ensures { (result ≡ weekday_relative_steps held w specifier unit) × Within result 2 }
{
    if is_week(unit) {
        single(Start::InWeek(specifier, w))
    } else {
        single(Start::Senseless)
    }
}

// A date, and a duration from it.
fn from_date(date: Date, parts: Parts, own: u8, back: bool) -> Plan
    requires { (own < parts.n) × (parts.n ≤ 21) }
    ensures value { result ≡ add_duration held back (begun (OnDate date)) (row_duration (slice own parts.n parts.items)) }
    ensures within { Within result (1 + size (row_duration (slice own parts.n parts.items))) }
{
    add_parts(single(Start::OnDate(date)), parts, own, parts.n, back)
}

// The steps of a date expression, whose duration's parts are those from `own` on.
fn expr_plan(expr: Expr, parts: Parts, own: u8) -> Plan
    requires { (parts.n ≤ 21) × (has_duration expr ≡ true → own < parts.n) }
    ensures value { result ≡ expr_steps held (expr_from expr (row_duration (slice own parts.n parts.items))) }
    ensures within { Within result (2 + size_expr (expr_from expr (row_duration (slice own parts.n parts.items)))) }
{
    match expr {
        Expr::Date(d) => single(Start::OnDate(d)),
        Expr::DateRelative(d, s, u) => date_relative(d, s, u),
        Expr::DateExpressionAfter(d) | Expr::After(d) => from_date(d, parts, own, false),
        Expr::DateExpressionBefore(d) => from_date(d, parts, own, true),
        Expr::Before(d) => from_date(d, parts, own, true),
        Expr::UnitRelative(s, u) => unit_relative(s, u),
        Expr::RelativeWeekday(s, w) => single(Start::InWeek(s, w)),
        Expr::WeekdayRelative(w, s, u) => weekday_relative(w, s, u),
        Expr::WeekdayExpressionBefore(w) => add(
            from_date(Date::Today, parts, own, true),
            Step::By(Move::BackTo(w)),
        ),
        Expr::WeekdayExpressionAfter(w) => add(
            from_date(Date::Today, parts, own, false),
            Step::By(Move::ForwardTo(w)),
        ),
        Expr::Weekday(w) => single(Start::FromToday(w)),
        Expr::Empty => single(Start::OnDate(Date::Today)),
    }
}

// The steps of what the durations stand around.
fn base_plan(r: &Chain) -> Plan
    requires { Formed r.now × (size_tree (base_of r.now) ≤ 21) }
    ensures { (result ≡ tree_steps held (base_of r.now)) × Within result (3 + size_tree (base_of r.now)) }
{
    match r.base {
        Base::Now => single(Start::Now),
        Base::DateTime(expr) => add(expr_plan(expr, r.parts, r.own), Step::AtTime(r.time)),
        Base::TimeDate(expr) => add(expr_plan(expr, r.parts, r.own), Step::AtTime(r.time)),
    }
}

// The steps of a reading: those of each link's duration, from the last link to the first, behind those of the base. Kept a call of its own,
// so that the room for a list is not held while a phrase is read.
#[inline(never)]
pub(crate) fn plan_of(r: Chain) -> Plan
    requires { Formed r × (size_tree (tree_of r) ≤ 21) }
    ensures { result ≡ tree_steps held (tree_of r) }
{
    let mut p = base_plan(&r);
    for i in (0..r.m).rev() {
        let link = r.links[i as usize];
        p = add_parts(p, r.parts, link.from, link.to, link.back);
    }
    p
}

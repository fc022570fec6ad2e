// A reading.
use super::lexemes::LexemeText;
use dates::date::Date;
use dates::duration::{Part, Slot};
use dates::time::Time;
use dates::units::{RelativeSpecifier, Unit};
use expressions::expr::Expr;
use lexer::lexeme::{DAY, HOUR, JANUARY, LAST, MINUTE, MONDAY, MONTH, NEXT, THIS, WEEK, YEAR};
use phrase::chain::{Base, Chain};
use std::fmt;

// `enum Unit`
fn unit(u: Unit) -> LexemeText {
    LexemeText(match u {
        Unit::Day => DAY,
        Unit::Week => WEEK,
        Unit::Hour => HOUR,
        Unit::Minute => MINUTE,
        Unit::Month => MONTH,
        Unit::Year => YEAR,
    })
}

// `enum RelativeSpecifier`
fn specifier(s: RelativeSpecifier) -> LexemeText {
    LexemeText(match s {
        RelativeSpecifier::This => THIS,
        RelativeSpecifier::Next => NEXT,
        RelativeSpecifier::Last => LAST,
    })
}

// `enum Weekday`, Monday 0.
fn weekday(w: u32) -> LexemeText {
    LexemeText(MONDAY + u64::from(w))
}

// `enum Month`, January 1.
fn month(m: u32) -> LexemeText {
    LexemeText(JANUARY - 1 + u64::from(m))
}

// `enum Date`
#[derive(Clone, Copy)]
struct DateText(Date);

impl fmt::Display for DateText {
    fn fmt<W: fmt::Write>(&self, f: &mut fmt::Formatter<W>) -> fmt::Result {
        match self.0 {
            Date::YearMonthNumDay(y, m, d) => write!(f, "YearMonthNumDay({y},{m},{d})"),
            Date::MonthNumDayYear(m, d, y) => write!(f, "MonthNumDayYear({m},{d},{y})"),
            Date::DayMonthYear(d, m, y) => write!(f, "DayMonthYear({d},{},{y})", month(m)),
            Date::MonthDayYear(m, d, y) => write!(f, "MonthDayYear({},{d},{y})", month(m)),
            Date::MonthNumDay(m, d) => write!(f, "MonthNumDay({m},{d})"),
            Date::MonthDay(m, d) => write!(f, "MonthDay({},{d})", month(m)),
            Date::Today => write!(f, "Today"),
            Date::Tomorrow => write!(f, "Tomorrow"),
            Date::Yesterday => write!(f, "Yesterday"),
            Date::Empty => write!(f, "Empty"),
        }
    }
}

// `enum Time`
#[derive(Clone, Copy)]
struct TimeText(Time);

impl fmt::Display for TimeText {
    fn fmt<W: fmt::Write>(&self, f: &mut fmt::Formatter<W>) -> fmt::Result {
        match self.0 {
            Time::HourMin(h, m) => write!(f, "HourMin({h},{m})"),
            Time::HourMinAM(h, m) => write!(f, "HourMinAM({h},{m})"),
            Time::HourMinPM(h, m) => write!(f, "HourMinPM({h},{m})"),
            Time::Empty => write!(f, "Empty"),
        }
    }
}

// `Duration::Article`, `Duration::Specific`
#[derive(Clone, Copy)]
struct PartText(Part);

impl fmt::Display for PartText {
    fn fmt<W: fmt::Write>(&self, f: &mut fmt::Formatter<W>) -> fmt::Result {
        match self.0 {
            Part::Article(u) => write!(f, "Article({})", unit(u)),
            Part::Specific(u, n) => write!(f, "Specific({n},{})", unit(u)),
        }
    }
}

// `enum Duration`: each part but the last is joined to what follows it. Nothing where there are no parts.
#[derive(Clone, Copy)]
struct DurationText<'a>(&'a [Slot]);

impl fmt::Display for DurationText<'_> {
    fn fmt<W: fmt::Write>(&self, f: &mut fmt::Formatter<W>) -> fmt::Result {
        let Some((last, joined)) = self.0.split_last() else {
            return Ok(());
        };
        for slot in joined {
            write!(f, "Concat({},", PartText(slot.part))?;
        }
        write!(f, "{}", PartText(last.part))?;
        for _ in joined {
            write!(f, ")")?;
        }
        Ok(())
    }
}

// `enum DateExpr` with its duration.
#[derive(Clone, Copy)]
struct ExprText<'a>(Expr, DurationText<'a>);

impl fmt::Display for ExprText<'_> {
    fn fmt<W: fmt::Write>(&self, f: &mut fmt::Formatter<W>) -> fmt::Result {
        let own = self.1;
        match self.0 {
            Expr::Date(d) => write!(f, "Date({})", DateText(d)),
            Expr::DateRelative(d, s, u) => {
                write!(
                    f,
                    "DateRelative({},{},{})",
                    DateText(d),
                    specifier(s),
                    unit(u)
                )
            }
            Expr::DateExpressionAfter(d) => {
                write!(f, "DateExpressionAfter({},{own})", DateText(d))
            }
            Expr::DateExpressionBefore(d) => {
                write!(f, "DateExpressionBefore({},{own})", DateText(d))
            }
            Expr::UnitRelative(s, u) => { write!(f, "UnitRelative({},{})", specifier(s), unit(u)) }
            Expr::RelativeWeekday(s, w) => {
                write!(f, "RelativeWeekday({},{})", specifier(s), weekday(w))
            }
            Expr::WeekdayRelative(w, s, u) => {
                write!(
                    f,
                    "WeekdayRelative({},{},{})",
                    weekday(w),
                    specifier(s),
                    unit(u)
                )
            }
            Expr::WeekdayExpressionBefore(w) => {
                write!(f, "WeekdayExpressionBefore({},{own})", weekday(w))
            }
            Expr::WeekdayExpressionAfter(w) => {
                write!(f, "WeekdayExpressionAfter({},{own})", weekday(w))
            }
            Expr::Before(d) => write!(f, "Before({own},{})", DateText(d)),
            Expr::After(d) => write!(f, "After({own},{})", DateText(d)),
            Expr::Weekday(w) => write!(f, "Weekday({})", weekday(w)),
            Expr::Empty => write!(f, "Empty"),
        }
    }
}

// `enum DateTime`: the durations, outermost first, around the base, which has its own parts behind theirs.
#[derive(Clone, Copy)]
pub struct ChainText(pub Chain);

impl ChainText {
    // The parts from one place up to another; none where they are out of the row.
    fn duration(&self, from: u8, to: u8) -> DurationText<'_> {
        let parts = self.0.parts.items.get(usize::from(from)..usize::from(to));
        DurationText(parts.unwrap_or(&[]))
    }

    // `DateTime::Now`, `DateTime::DateTime`, `DateTime::TimeDate`
    fn write_base<W: fmt::Write>(&self, f: &mut fmt::Formatter<W>) -> fmt::Result {
        let own = self.duration(self.0.own, self.0.parts.n);
        let time = TimeText(self.0.time);
        match self.0.base {
            Base::Now => write!(f, "Now"),
            Base::DateTime(e) => write!(f, "DateTime({},{time})", ExprText(e, own)),
            Base::TimeDate(e) => write!(f, "TimeDate({time},{})", ExprText(e, own)),
        }
    }
}

impl fmt::Display for ChainText {
    fn fmt<W: fmt::Write>(&self, f: &mut fmt::Formatter<W>) -> fmt::Result {
        let links = self.0.links.get(..usize::from(self.0.m)).unwrap_or(&[]);
        for link in links {
            let name = if link.back { "Before" } else { "After" };
            write!(f, "{name}({},", self.duration(link.from, link.to))?;
        }
        self.write_base(f)?;
        for _ in links {
            write!(f, ")")?;
        }
        Ok(())
    }
}

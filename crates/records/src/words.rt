// A step as numbers, and back.
ghost use Rattle.std.specs.Prelude.{◌≡◌};
ghost use Rattle.records.specs.Words.{words, date_words, week_words, start_words, move_words, time_words, words_of};
ghost use Rattle.records.specs.Words.{date_from, specifier_from, time_from, step_from};

use dates::date::Date;
use dates::time::Time;
use dates::units::RelativeSpecifier;
use steps::plan::{Move, Start, Step};

// A record's kind, its form within the kind, and three numbers.
#[derive(Clone, Copy)]
pub struct Words {
    pub kind: u32,
    pub form: u32,
    pub a: u32,
    pub b: u32,
    pub c: u32,
}

// What a number of a record holds: 2 ^ 32.
const WIDE: u64 = 4294967296;

// Kind, form and three numbers.
fn numbers(kind: u32, form: u32, a: u32, b: u32, c: u32) -> Words
    ensures { result ≡ words kind form a b c }
{
    Words {
        kind,
        form,
        a,
        b,
        c,
    }
}

// A date rule as numbers.
fn date_words(date: Date) -> Words
    ensures { result ≡ date_words date }
{
    match date {
        Date::YearMonthNumDay(y, m, d) => numbers(3, 0, y, m, d),
        Date::MonthNumDayYear(m, d, y) => numbers(3, 1, m, d, y),
        Date::DayMonthYear(d, m, y) => numbers(3, 2, d, m, y),
        Date::MonthDayYear(m, d, y) => numbers(3, 3, m, d, y),
        Date::MonthNumDay(m, d) => numbers(3, 4, m, d, 0),
        Date::MonthDay(m, d) => numbers(3, 5, m, d, 0),
        Date::Today => numbers(3, 6, 0, 0, 0),
        Date::Tomorrow => numbers(3, 7, 0, 0, 0),
        Date::Yesterday => numbers(3, 8, 0, 0, 0),
        Date::Empty => numbers(3, 9, 0, 0, 0),
    }
}

// A weekday of a week as numbers.
fn week_words(specifier: RelativeSpecifier, w: u32) -> Words
    ensures { result ≡ week_words specifier w }
{
    match specifier {
        RelativeSpecifier::This => numbers(4, 0, w, 0, 0),
        RelativeSpecifier::Next => numbers(4, 1, w, 0, 0),
        RelativeSpecifier::Last => numbers(4, 2, w, 0, 0),
    }
}

// A time of day as numbers.
fn time_words(time: Time) -> Words
    ensures { result ≡ time_words time }
{
    match time {
        Time::Empty => numbers(10, 0, 0, 0, 0),
        Time::HourMin(h, m) => numbers(10, 1, h, m, 0),
        Time::HourMinAM(h, m) => numbers(10, 2, h, m, 0),
        Time::HourMinPM(h, m) => numbers(10, 3, h, m, 0),
    }
}

// A start as numbers.
fn start_words(start: Start) -> Words
    ensures { result ≡ start_words start }
{
    match start {
        Start::Now => numbers(1, 0, 0, 0, 0),
        Start::Senseless => numbers(2, 0, 0, 0, 0),
        Start::OnDate(date) => date_words(date),
        Start::InWeek(s, w) => week_words(s, w),
        Start::FromToday(w) => numbers(5, 0, w, 0, 0),
    }
}

// A move as numbers.
fn move_words(way: Move) -> Words
    ensures { result ≡ move_words way }
{
    match way {
        Move::Minutes { back, count } => numbers(
            6,
            u32::from(back),
            (count % WIDE) as u32,
            (count / WIDE) as u32,
            0,
        ),
        Move::Months { back, count } => numbers(7, u32::from(back), count, 0, 0),
        Move::Years { back, count } => numbers(8, u32::from(back), count, 0, 0),
        Move::BackTo(w) => numbers(9, 0, w, 0, 0),
        Move::ForwardTo(w) => numbers(11, 0, w, 0, 0),
    }
}

// A step as numbers.
pub(crate) fn words_of(step: Step) -> Words
    ensures { result ≡ words_of step }
{
    match step {
        Step::From(start) => start_words(start),
        Step::By(way) => move_words(way),
        Step::AtTime(time) => time_words(time),
    }
}

// A date by its form.
fn date_from(form: u32, a: u32, b: u32, c: u32) -> Date
    ensures { result ≡ date_from form a b c }
{
    match form {
        0 => Date::YearMonthNumDay(a, b, c),
        1 => Date::MonthNumDayYear(a, b, c),
        2 => Date::DayMonthYear(a, b, c),
        3 => Date::MonthDayYear(a, b, c),
        4 => Date::MonthNumDay(a, b),
        5 => Date::MonthDay(a, b),
        6 => Date::Today,
        7 => Date::Tomorrow,
        8 => Date::Yesterday,
        _ => Date::Empty,
    }
}

// A specifier by its form.
fn specifier_from(form: u32) -> RelativeSpecifier
    ensures { result ≡ specifier_from form }
{
    match form {
        0 => RelativeSpecifier::This,
        1 => RelativeSpecifier::Next,
        _ => RelativeSpecifier::Last,
    }
}

// A time of day by its form.
fn time_from(form: u32, a: u32, b: u32) -> Time
    ensures { result ≡ time_from form a b }
{
    match form {
        1 => Time::HourMin(a, b),
        2 => Time::HourMinAM(a, b),
        3 => Time::HourMinPM(a, b),
        _ => Time::Empty,
    }
}

// The only step that may have these numbers.
#[tactic(auto, unfolding(crate::specs::Words::step_from))]
pub(crate) fn step_from(w: Words) -> Step
    ensures { result ≡ step_from w }
{
    let Words {
        kind,
        form,
        a,
        b,
        c,
    } = w;
    let back = form == 1;
    match kind {
        2 => Step::From(Start::Senseless),
        3 => Step::From(Start::OnDate(date_from(form, a, b, c))),
        4 => Step::From(Start::InWeek(specifier_from(form), a)),
        5 => Step::From(Start::FromToday(a)),
        6 => Step::By(Move::Minutes {
            back,
            count: u64::from(a) + WIDE * u64::from(b),
        }),
        7 => Step::By(Move::Months { back, count: a }),
        8 => Step::By(Move::Years { back, count: a }),
        9 => Step::By(Move::BackTo(a)),
        10 => Step::AtTime(time_from(form, a, b)),
        11 => Step::By(Move::ForwardTo(a)),
        _ => Step::From(Start::Now),
    }
}

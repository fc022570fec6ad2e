// The readers of dates.
ghost use Rattle.std.specs.Prelude.{◌≡◌, ◌+◌, ◌≤◌, max, length};
ghost use Rattle.numbers.specs.Numbers.{num_of};
ghost use Rattle.dates.specs.Parsed.{parsed, parsed_one, Took};
ghost use Rattle.dates.specs.Dates.{named_day_of, day_month_year_of, is_year_in, comma_in, month_day_of, is_delim, three_numbers_of, two_numbers_of, behind_second_of, delimited_of, date_of};

use super::units::read_month;
use lexer::lexeme::{COMMA, DASH, DOT, SLASH, TODAY, TOMORROW, YESTERDAY};
use lexer::reading::Reading;
use numbers::slices::{get, is_at, rest, take_if};
use numbers::{Found, Number, num};

// `enum Date`; a month is a number from 1 on.
#[derive(Clone, Copy)]
pub enum Date {
    YearMonthNumDay(u32, u32, u32),
    MonthNumDayYear(u32, u32, u32),
    DayMonthYear(u32, u32, u32),
    MonthDayYear(u32, u32, u32),
    MonthNumDay(u32, u32),
    MonthDay(u32, u32),
    Today,
    Tomorrow,
    Yesterday,
    Empty,
}

// today, tomorrow, yesterday: one lexeme
#[tactic(auto, unfolding(crate::specs::Dates::named_day_of))]
fn read_named_day(l: &[u64]) -> Option<Date>
    ensures { parsed_one result ≡ named_day_of l.now }
{
    if is_at(l, 0, TODAY) {
        return Some(Date::Today);
    }
    if is_at(l, 0, TOMORROW) {
        return Some(Date::Tomorrow);
    }
    if is_at(l, 0, YESTERDAY) {
        return Some(Date::Yesterday);
    }
    None
}

// <num> <month> <num>, the number at the front being read.
#[tactic(auto, unfolding(crate::specs::Dates::day_month_year_of))]
fn read_day_month_year(reading: Reading, l: &[u64], day: Number) -> Found<Date>
    requires read { num_of reading l.now ≡ Ok (Some day) }
    requires taken { day.taken ≤ length l.now }
    ensures { parsed result ≡ day_month_year_of reading l.now }
{
    let Some(month) = read_month(rest(l, day.taken)) else {
        return Ok(None);
    };
    let t = day.taken + 1;
    let Some(year) = num(reading, rest(l, t))? else {
        return Ok(None);
    };
    Ok(Some((
        Date::DayMonthYear(day.value, month, year.value),
        t + year.taken,
    )))
}

// Is a number behind month and day their year? In the second reading only a run of four digits is.
fn is_year_in(reading: Reading, n: Number) -> bool
    ensures { result ≡ is_year_in reading n }
{
    match reading {
        Reading::First => true,
        Reading::Second => n.digits == 4,
    }
}

// 1 for a comma at t, behind which the second reading looks for a year, and else 0.
fn take_comma(reading: Reading, l: &[u64], t: usize) -> usize
    ensures value { result ≡ comma_in reading l.now t }
    ensures upper_bound { (result ≤ 1) × (t + result ≤ max t (length l.now)) }
{
    match reading {
        Reading::First => 0,
        Reading::Second => take_if(l, t, COMMA),
    }
}

// <month> <num> [[,] <num>], the month being read: with no number behind it there is no date. A comma belongs to the year alone.
#[tactic(auto, unfolding(crate::specs::Dates::month_day_of))]
fn read_month_day(reading: Reading, l: &[u64], month: u32) -> Found<Date>
    requires { 1 ≤ length l.now }
    ensures { parsed result ≡ month_day_of reading month l.now }
{
    let Some(day) = num(reading, rest(l, 1))? else {
        return Ok(None);
    };
    let t = 1 + day.taken;
    let s = t + take_comma(reading, l, t);
    match num(reading, rest(l, s))? {
        Some(year) if is_year_in(reading, year) => Ok(Some((
            Date::MonthDayYear(month, day.value, year.value),
            s + year.taken,
        ))),
        _ => Ok(Some((Date::MonthDay(month, day.value), t))),
    }
}

// A slash, a dash or a dot.
#[tactic(auto, unfolding(crate::specs::Dates::is_delim))]
fn is_delim(x: u64) -> bool
    ensures { result ≡ is_delim x }
{
    matches!(x, SLASH | DASH | DOT)
}

// Three numbers: year first if it is above 1000, day first behind a dot, else month first.
#[tactic(auto, unfolding(crate::specs::Dates::three_numbers_of))]
fn three_numbers(delim: u64, num1: u32, num2: u32, num3: u32) -> Date
    ensures { result ≡ three_numbers_of delim num1 num2 num3 }
{
    if num1 > 1000 {
        Date::YearMonthNumDay(num1, num2, num3)
    } else if delim == DOT {
        Date::MonthNumDayYear(num2, num1, num3)
    } else {
        Date::MonthNumDayYear(num1, num2, num3)
    }
}

// Two numbers: day first behind a dot, else month first.
#[tactic(auto, unfolding(crate::specs::Dates::two_numbers_of))]
fn two_numbers(delim: u64, num1: u32, num2: u32) -> Date
    ensures { result ≡ two_numbers_of delim num1 num2 }
{
    if delim == DOT {
        Date::MonthNumDay(num2, num1)
    } else {
        Date::MonthNumDay(num1, num2)
    }
}

// Behind the second number, which ends at t.
#[tactic(auto, unfolding(crate::specs::Dates::behind_second_of))]
fn behind_second(
    reading: Reading,
    l: &[u64],
    delim: u64,
    num1: u32,
    num2: u32,
    t: usize,
) -> Found<Date>
    ensures { parsed result ≡ behind_second_of reading delim num1 num2 t l.now }
{
    if l.len() <= t {
        return Ok(None);
    }
    if !is_at(l, t, delim) {
        return Ok(Some((two_numbers(delim, num1, num2), t)));
    }
    let Some(num3) = num(reading, rest(l, t + 1))? else {
        return Ok(None);
    };
    Ok(Some((
        three_numbers(delim, num1, num2, num3.value),
        t + 1 + num3.taken,
    )))
}

// <num> <delim> <num> [<delim> <num>], the number at the front being read.
#[tactic(auto, using(crate::proofs::LexemesTaken::delim_there), unfolding(crate::specs::Dates::delimited_of))]
fn read_delimited(reading: Reading, l: &[u64], num1: Number) -> Found<Date>
    requires { num_of reading l.now ≡ Ok (Some num1) }
    ensures { parsed result ≡ delimited_of reading l.now }
{
    let delim = get(l, num1.taken);
    if !is_delim(delim) {
        return Ok(None);
    }
    let t = num1.taken + 1;
    let Some(num2) = num(reading, rest(l, t))? else {
        return Ok(None);
    };
    behind_second(reading, l, delim, num1.value, num2.value, t + num2.taken)
}

// Date::parse; the number at the front is read once for both alternatives that begin with it.
#[tactic(auto, using(crate::proofs::LexemesTaken::date_took), unfolding(crate::specs::Dates::date_of))]
pub fn read_date(reading: Reading, l: &[u64]) -> Found<Date>
    ensures result_value { parsed result ≡ date_of reading l.now }
    ensures took { Took (parsed result) 1 (length l.now) }
{
    if let Some(day) = read_named_day(l) {
        return Ok(Some((day, 1)));
    }
    let first = num(reading, l)?;
    if let Some(number) = first {
        if let Some(date) = read_day_month_year(reading, l, number)? {
            return Ok(Some(date));
        }
    }
    if let Some(month) = read_month(l) {
        return read_month_day(reading, l, month);
    }
    let Some(number) = first else {
        return Ok(None);
    };
    read_delimited(reading, l, number)
}

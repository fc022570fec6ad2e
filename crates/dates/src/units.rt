// The readers of one lexeme: an article, a unit, a month, a weekday, a relative specifier.
ghost use Rattle.std.specs.Prelude.{◌≡◌, ◌≤◌, length};
ghost use Rattle.numbers.specs.Slices.{one_if};
ghost use Rattle.dates.specs.Parsed.{parsed_one, Took};
ghost use Rattle.dates.specs.Units.{is_article, unit_of, month_of, weekday_of, relative_specifier_of};

use lexer::lexeme::{
    A, AN, DAY, DECEMBER, HOUR, JANUARY, LAST, MINUTE, MONDAY, MONTH, NEXT, SUNDAY, THE, THIS,
    WEEK, YEAR,
};
use numbers::slices::get;

// `enum Unit`
#[derive(Clone, Copy)]
pub enum Unit {
    Day,
    Week,
    Hour,
    Minute,
    Month,
    Year,
}

// `enum RelativeSpecifier`
#[derive(Clone, Copy)]
pub enum RelativeSpecifier {
    This,
    Next,
    Last,
}

// Article::parse: whether an article stands here. Which of the three it is is never looked at.
#[tactic(auto, unfolding(crate::specs::Units::is_article))]
pub(crate) fn is_article(l: &[u64]) -> bool
    ensures value { result ≡ is_article l.now }
    ensures result_in_bounds { one_if result ≤ length l.now }
{
    matches!(get(l, 0), A | AN | THE)
}

// Unit::parse: a unit is one lexeme.
#[tactic(auto, using(crate::proofs::LexemesTaken::unit_took), unfolding(crate::specs::Units::unit_of))]
pub fn read_unit(l: &[u64]) -> Option<Unit>
    ensures result_value { parsed_one result ≡ unit_of l.now }
    ensures took { Took (parsed_one result) 1 (length l.now) }
{
    match get(l, 0) {
        DAY => Some(Unit::Day),
        WEEK => Some(Unit::Week),
        MONTH => Some(Unit::Month),
        YEAR => Some(Unit::Year),
        MINUTE => Some(Unit::Minute),
        HOUR => Some(Unit::Hour),
        _ => None,
    }
}

// Month::parse: one lexeme; January is 1.
#[tactic(auto, using(crate::proofs::LexemesTaken::month_took), unfolding(crate::specs::Units::month_of, numbers::specs::Slices::within))]
pub(crate) fn read_month(l: &[u64]) -> Option<u32>
    ensures result_value { parsed_one result ≡ month_of l.now }
    ensures took { Took (parsed_one result) 1 (length l.now) }
{
    let x = get(l, 0);
    if (JANUARY..=DECEMBER).contains(&x) {
        return Some((x - JANUARY + 1) as u32);
    }
    None
}

// Weekday::parse: one lexeme; Monday is 0.
#[tactic(auto, using(crate::proofs::LexemesTaken::weekday_took), unfolding(crate::specs::Units::weekday_of, numbers::specs::Slices::within))]
pub fn read_weekday(l: &[u64]) -> Option<u32>
    ensures result_value { parsed_one result ≡ weekday_of l.now }
    ensures took { Took (parsed_one result) 1 (length l.now) }
{
    let x = get(l, 0);
    if (MONDAY..=SUNDAY).contains(&x) {
        return Some((x - MONDAY) as u32);
    }
    None
}

// RelativeSpecifier::parse: one lexeme.
#[tactic(auto, using(crate::proofs::LexemesTaken::specifier_took), unfolding(crate::specs::Units::relative_specifier_of))]
pub fn read_specifier(l: &[u64]) -> Option<RelativeSpecifier>
    ensures result_value { parsed_one result ≡ relative_specifier_of l.now }
    ensures took { Took (parsed_one result) 1 (length l.now) }
{
    match get(l, 0) {
        THIS => Some(RelativeSpecifier::This),
        NEXT => Some(RelativeSpecifier::Next),
        LAST => Some(RelativeSpecifier::Last),
        _ => None,
    }
}

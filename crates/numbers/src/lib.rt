// The number readers of ast.rs, `Ones` to `Num`: a reader takes the lexemes from where it stands, as in the Rust.
#![tactic(auto)]

ghost use Rattle.std.specs.Prelude.{◌≡◌, ◌+◌, ◌≤◌, ◌<◌, max, length};
ghost use Rattle.numbers.specs.Slices.{get, one_if};
ghost use Rattle.numbers.specs.Answers.{MAX, USIZE, Taken, Read, number, written, or_else, taken_of, fits_of};
ghost use Rattle.numbers.specs.Numbers.{is_ending, begins_number, word_of, literal_of, literal_tokens, ones_of, teens_of, tens_of, tens_ones_of};
ghost use Rattle.numbers.specs.Numbers.{num_double_of, sum_of, hundreds_of, num_triple_of, num_triple_unit_of, units_of, num_of};

use lexer::lexeme::{AND, BILLION, DASH, HUNDRED, MILLION, ND, NUM, RD, ST, TH, THOUSAND};
use lexer::reading::Reading;
use slices::{get, is_at, rest, take_if};

pub mod slices;

// A number that was read, the digits of the one run that it was written with, 0 for any other number, and the lexemes taken.
#[derive(Clone, Copy)]
pub struct Number {
    pub value: u32,
    pub digits: u32,
    pub taken: usize,
}

// Refusal 6: a sum or product in a number passes 4,294,967,295.
#[derive(Clone, Copy, PartialEq, Eq)]
pub struct Overflow;

// What a reader answers: a value and the lexemes taken, or that there is none, or an overflow, which stops the reading.
pub type Found<T> = Result<Option<(T, usize)>, Overflow>;

// What a number reader answers.
pub type NumberFound = Result<Option<Number>, Overflow>;

// The answer of a value, the digits that it was written with and the lexemes taken: the one function that makes a `Number`.
fn written(value: u32, digits: u32, taken: usize) -> NumberFound
    ensures { result ≡ written value digits taken }
{
    Ok(Some(Number {
        value,
        digits,
        taken,
    }))
}

// The same of a number that is not one run of digits.
fn found(value: u32, taken: usize) -> NumberFound
    ensures { result ≡ number value taken }
{
    written(value, 0, taken)
}

// `ST | RD | ND | TH`
#[tactic(auto, unfolding(crate::specs::Numbers::is_ending))]
fn is_ending(x: u64) -> bool
    ensures value { result ≡ is_ending x }
    ensures result_bound { one_if result ≤ x }
{
    matches!(x, ST | RD | ND | TH)
}

// 1 for an ordinal's ending at i, which is taken then, and else 0.
fn take_ending(l: &[u64], i: usize) -> usize
    ensures value { result ≡ one_if (is_ending (get l.now i)) }
    ensures upper_bound { (result ≤ 1) × (i + result ≤ max i (length l.now)) }
{
    usize::from(is_ending(get(l, i)))
}

// A number word from lo to hi, whose code is its value.
#[tactic(auto, unfolding(crate::specs::Numbers::word_of, crate::specs::Slices::within))]
fn word(l: &[u64], lo: u32, hi: u32, tokens: usize) -> NumberFound
    ensures { result ≡ word_of l.now lo hi tokens }
{
    let x = get(l, 0);
    if (u64::from(lo)..=u64::from(hi)).contains(&x) {
        return found(x as u32, tokens);
    }
    Ok(None)
}

// `Num(n)` with lo <= n <= hi, and the digits of its run.
#[tactic(auto, unfolding(crate::specs::Numbers::literal_of, crate::specs::Slices::within))]
fn literal(l: &[u64], lo: u32, hi: u32, tokens: usize) -> NumberFound
    ensures { result ≡ literal_of l.now lo hi tokens }
{
    let x = get(l, 0);
    if NUM <= x && (u64::from(lo)..=u64::from(hi)).contains(&(x % NUM)) {
        return written((x % NUM) as u32, (x / NUM) as u32, tokens);
    }
    Ok(None)
}

// The lexemes of a literal that takes so many in the first reading: in the second any ending may follow it.
fn literal_tokens(reading: Reading, l: &[u64], tokens: usize) -> usize
    ensures { result ≡ literal_tokens reading l.now tokens }
{
    match reading {
        Reading::First => tokens,
        Reading::Second => 1 + take_ending(l, 1),
    }
}

// A number word from `first` to `last`, or a literal from lo to hi.
fn word_or_literal(l: &[u64], first: u32, last: u32, lo: u32, hi: u32, tokens: usize) -> NumberFound
    ensures { result ≡ or_else (word_of l.now first last tokens) (literal_of l.now lo hi tokens) }
{
    if let Some(n) = word(l, first, last, tokens)? {
        return Ok(Some(n));
    }
    literal(l, lo, hi, tokens)
}

// `Ones::parse`
#[tactic(auto, using(crate::proofs::NumberBounds::ones_taken), unfolding(crate::specs::Numbers::ones_of))]
fn ones(l: &[u64]) -> NumberFound
    ensures value { result ≡ ones_of l.now }
    ensures taken { Taken result 1 9 (length l.now) }
{
    word_or_literal(l, 1, 9, 0, 9, 1 + take_ending(l, 1))
}

// `Teens::parse`
#[tactic(auto, unfolding(crate::specs::Numbers::teens_of))]
fn teens(reading: Reading, l: &[u64]) -> NumberFound
    ensures { result ≡ teens_of reading l.now }
{
    let tokens = 1 + take_if(l, 1, TH);
    if let Some(n) = word(l, 10, 19, tokens)? {
        return Ok(Some(n));
    }
    literal(l, 10, 19, literal_tokens(reading, l, tokens))
}

// `Tens::parse`
#[tactic(auto, unfolding(crate::specs::Numbers::tens_of))]
fn tens(l: &[u64]) -> NumberFound
    ensures value { result ≡ tens_of l.now }
    ensures taken { Taken result 1 90 (length l.now) }
{
    let tens = word(l, 20, 90, 1 + take_if(l, 1, TH))?;
    Ok(tens.filter(|n| n.value % 10 == 0))
}

// The first alternative of `NumDouble::parse`: tens, a dash that may be missing, ones that may be missing.
#[tactic(auto, unfolding(crate::specs::Numbers::tens_ones_of))]
fn tens_ones(l: &[u64]) -> NumberFound
    ensures { result ≡ tens_ones_of l.now }
{
    let Some(n) = tens(l)? else {
        return Ok(None);
    };
    let tokens = n.taken + take_if(l, n.taken, DASH);
    let Some(m) = ones(rest(l, tokens))? else {
        return found(n.value, tokens);
    };
    found(n.value + m.value, tokens + m.taken)
}

// `NumDouble::parse`
#[tactic(auto, unfolding(crate::specs::Numbers::num_double_of))]
fn num_double(reading: Reading, l: &[u64]) -> NumberFound
    ensures { result ≡ num_double_of reading l.now }
{
    if let Some(n) = tens_ones(l)? {
        return Ok(Some(n));
    }
    if let Some(n) = teens(reading, l)? {
        return Ok(Some(n));
    }
    if let Some(n) = ones(l)? {
        return Ok(Some(n));
    }
    literal(l, 20, 99, literal_tokens(reading, l, 1))
}

// A value that passes the largest u32 is an overflow.
#[tactic(auto, unfolding(crate::specs::Answers::fits_of))]
fn fits(v: u64, t: usize) -> NumberFound
    ensures { result ≡ fits_of v t }
{
    match u32::try_from(v) {
        Ok(value) => found(value, t),
        Err(_) => Err(Overflow),
    }
}

// A head and the number behind it, which may be missing unless it is required.
#[tactic(auto, unfolding(crate::specs::Numbers::sum_of))]
fn sum(required: bool, head: u64, tokens: usize, num: NumberFound) -> NumberFound
    requires { (head ≤ 999000000000) × (tokens + taken_of num ≤ USIZE) }
    ensures { result ≡ sum_of required head tokens num }
{
    match num? {
        Some(n) => fits(head + u64::from(n.value), tokens + n.taken),
        None if required => Ok(None),
        None => fits(head, tokens),
    }
}

// `<ones> hundred [[and] <num_double>]` for the ones that were read.
#[tactic(auto, unfolding(crate::specs::Numbers::hundreds_of, crate::specs::Numbers::tail_of))]
fn hundreds(reading: Reading, l: &[u64], ones: NumberFound) -> NumberFound
    requires { Taken ones 0 9 (length l.now) }
    ensures { result ≡ hundreds_of reading l.now ones }
{
    let Some(n) = ones? else {
        return Ok(None);
    };
    if !is_at(l, n.taken, HUNDRED) {
        return Ok(None);
    }
    let head = u64::from(n.value) * 100;
    let s = n.taken + 1;
    let required = is_at(l, s, AND);
    let tokens = s + usize::from(required);
    sum(required, head, tokens, num_double(reading, rest(l, tokens)))
}

// The last alternative of `NumTriple::parse`: a literal from 100 to 999, with an ordinal's ending.
fn literal_hundreds(l: &[u64]) -> NumberFound
    ensures { result ≡ literal_of l.now 100 999 (1 + one_if (is_ending (get l.now 1))) }
{
    literal(l, 100, 999, 1 + take_ending(l, 1))
}

// `NumTriple::parse`
#[tactic(auto, unfolding(crate::specs::Numbers::num_triple_of))]
fn num_triple(reading: Reading, l: &[u64]) -> NumberFound
    ensures { result ≡ num_triple_of reading l.now }
{
    if let Some(n) = hundreds(reading, l, ones(l))? {
        return Ok(Some(n));
    }
    if let Some(n) = hundreds(reading, l, found(1, 0))? {
        return Ok(Some(n));
    }
    if let Some(n) = num_double(reading, l)? {
        return Ok(Some(n));
    }
    literal_hundreds(l)
}

// `NumTripleUnit::parse`
#[tactic(auto, unfolding(crate::specs::Numbers::num_triple_unit_of))]
fn num_triple_unit(l: &[u64]) -> NumberFound
    ensures value { result ≡ num_triple_unit_of l.now }
    ensures taken { Taken result 1 1000000000 (length l.now) }
{
    if is_at(l, 0, THOUSAND) {
        return found(1000, 1);
    }
    if is_at(l, 0, MILLION) {
        return found(1000000, 1);
    }
    if is_at(l, 0, BILLION) {
        return found(1000000000, 1);
    }
    Ok(None)
}

// `<num_triple> <num_triple_unit> [[and] <num>]` for the triple that was read: the tail behind it, in which a number begins again.
#[cycle(units_whole)]
#[tactic(auto, unfolding(crate::specs::Numbers::units_of, crate::specs::Numbers::tail_of))]
fn units(reading: Reading, l: &[u64], triple: NumberFound) -> NumberFound
    requires { Taken triple 0 999 (length l.now) }
    ensures { result ≡ units_of (num_of reading) l.now triple }
{
    let Some(n) = triple? else {
        return Ok(None);
    };
    let Some(unit) = num_triple_unit(rest(l, n.taken))? else {
        return Ok(None);
    };
    let head = u64::from(n.value) * u64::from(unit.value);
    let s = n.taken + unit.taken;
    let required = is_at(l, s, AND);
    let tokens = s + usize::from(required);
    sum(required, head, tokens, whole(reading, rest(l, tokens)))
}

// Does a number begin with the first lexeme?
#[tactic(auto, unfolding(crate::specs::Numbers::begins_number, crate::specs::Slices::within))]
fn begins_number(l: &[u64]) -> bool
    ensures { result ≡ begins_number (get l.now 0) }
{
    let x = get(l, 0);
    (1..=90).contains(&x) || (HUNDRED..=BILLION).contains(&x) || NUM <= x
}

// `Num::parse`, each alternative; the triple is read once for both that begin with it.
#[tactic(auto, using(crate::proofs::NumStep::num_is), unfolding(crate::specs::Numbers::num_step))]
#[cycle(units_whole)]
fn whole(reading: Reading, l: &[u64]) -> NumberFound
    ensures { result ≡ num_of reading l.now }
{
    let triple = num_triple(reading, l);
    if let Some(n) = units(reading, l, triple)? {
        return Ok(Some(n));
    }
    if let Some(n) = units(reading, l, found(1, 0))? {
        return Ok(Some(n));
    }
    if let Some(n) = triple? {
        return Ok(Some(n));
    }
    literal(l, 1000, u32::MAX, literal_tokens(reading, l, 1))
}

// A literal, or a word up to nineteen, is the number where behind it stands no lexeme from `HUNDRED` to `TH`, which could belong to it.
fn begun(reading: Reading, l: &[u64]) -> NumberFound
    ensures { result ≡ num_of reading l.now }
{
    if !(HUNDRED..=TH).contains(&get(l, 1)) {
        if let Some(n) = word_or_literal(l, 1, 19, 0, u32::MAX, 1)? {
            return Ok(Some(n));
        }
    }
    whole(reading, l)
}

// `Num::parse`; no alternative is tried where no number begins.
pub fn num(reading: Reading, l: &[u64]) -> NumberFound
    ensures value { result ≡ num_of reading l.now }
    ensures read { Read result 1 (length l.now) }
{
    if begins_number(l) {
        return begun(reading, l);
    }
    Ok(None)
}

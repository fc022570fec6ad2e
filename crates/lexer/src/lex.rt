// A phrase cut into lexemes.
ghost use Rattle.std.specs.Prelude.{◌≡◌, ◌≤◌, length};
ghost use Rattle.std.proofs.lemmas.List.Edits.{sets};
ghost use Rattle.lexer.specs.Keywords.{words_in};
ghost use Rattle.lexer.specs.Lex.{of_code, is_digit_at, said_digits, word_at, number_at, token_at};
ghost use Rattle.lexer.specs.Lex.{lex_from, lexed, front_from, front, codes_of, starts_of, ended_of, Placed};

use super::class::{Class, class_of, mark};
use super::find::find;
use super::lexeme::NUM;
use super::reading::Reading;
use super::run::run_end;
use super::word::{key_at, letter};
use super::words::Words;
use digits::digit::{TOO_LARGE, is_digit, with_digit};
use refusals::{Reason, Refusal};

// A lexeme, with the bytes from start up to end.
#[derive(Clone, Copy)]
pub struct Token {
    pub code: u64,
    pub start: usize,
    pub end: usize,
}

// A word or mark from start up to end by its code; with none it is refused.
fn coded(code: Option<u64>, start: usize, end: usize) -> Result<Token, Refusal>
    ensures { result ≡ of_code code start end }
{
    match code {
        Some(code) => Ok(Token { code, start, end }),
        None => Err(Refusal {
            reason: Reason::Unknown,
            place: start,
            end,
        }),
    }
}

// The word that begins at a.
fn word_at(words: Words, s: &[u8], a: usize) -> Result<Token, Refusal>
    ensures { result ≡ word_at (words_in words.reading) s.now a }
{
    let key = key_at(s, a);
    coded(find(words, key.head, key.tail).code, a, key.end)
}

// How many digits a literal says of a run of n.
fn said_digits(n: usize) -> u64
    ensures { result ≡ said_digits n }
{
    n.min(256) as u64
}

// Does a digit stand at a place?
fn is_digit_at(s: &[u8], at: usize) -> bool
    ensures { result ≡ is_digit_at s.now at }
{
    at < s.len() && is_digit(s[at])
}

// The number that begins at a.
fn number_at(s: &[u8], a: usize) -> Result<Token, Refusal>
    ensures { result ≡ number_at s.now a }
{
    let mut value: u64 = 0;
    let mut end = a;
    while is_digit_at(s, end) {
        value = with_digit(value, s[end]);
        end += 1;
    }
    if TOO_LARGE <= value {
        return Err(Refusal {
            reason: Reason::LargeDigits,
            place: a,
            end,
        });
    }
    Ok(Token {
        code: NUM * said_digits(end - a) + value,
        start: a,
        end,
    })
}

// The first lexeme at or after a place, by the words of a reading; past the last byte there is none. Letters are tried first, since most lexemes are words.
#[tactic(auto, using(crate::proofs::Letters::letter_is, crate::proofs::Letters::letter_not), unfolding(crate::specs::Lex::token_at))]
fn token_in(words: Words, s: &[u8], at: usize) -> Result<Option<Token>, Refusal>
    ensures { result ≡ token_at (words_in words.reading) s.now at }
{
    let a = run_end(s, at, Class::Gap);
    let Some(b) = s.get(a) else {
        return Ok(None);
    };
    if letter(*b).is_some() {
        return Ok(Some(word_at(words, s, a)?));
    }
    let token = match class_of(*b) {
        Class::Digit => number_at(s, a),
        Class::Mark => coded(mark(*b), a, a + 1),
        _ => coded(None, a, a + 1),
    };
    Ok(Some(token?))
}

// The first lexeme at or after a place in one of the readings; past the last byte there is none.
pub fn token_at(reading: Reading, s: &[u8], at: usize) -> Result<Option<Token>, Refusal>
    ensures { result ≡ token_at (words_in reading) s.now at }
{
    token_in(Words::of(reading), s, at)
}

// The lexemes of a phrase that is not too long, by the words of a reading: a word or number is judged before it is counted.
fn lex_in(
    words: Words,
    s: &[u8],
    codes: &mut [u64; 64],
    starts: &mut [u8; 64],
) -> Result<usize, Refusal>
    requires { length s.now ≤ 256 }
    ensures value { result ≡ ended_of (lex_from (words_in words.reading) 64 s.now 0) }
    ensures codes { codes.new ≡ sets codes.old 0 (codes_of (front_from (words_in words.reading) 64 s.now 0)) }
    ensures starts { starts.new ≡ sets starts.old 0 (starts_of (front_from (words_in words.reading) 64 s.now 0)) }
{
    let mut count: usize = 0;
    let mut at: usize = 0;
    while let Some(token) = token_in(words, s, at)? {
        if count == 64 {
            return Err(Refusal {
                reason: Reason::TooMany,
                place: token.start,
                end: token.end,
            });
        }
        codes[count] = token.code;
        starts[count] = token.start as u8;
        count += 1;
        at = token.end;
    }
    Ok(count)
}

// A phrase's lexemes in one of the readings, left to right, up to the end or the first refusal: how many they are, or the refusal.
// Their codes and the places of their first bytes go into the lent arrays, and what stands behind them there stays.
pub fn lex(
    reading: Reading,
    s: &[u8],
    codes: &mut [u64; 64],
    starts: &mut [u8; 64],
) -> Result<usize, Refusal>
    ensures value { result ≡ ended_of (lexed (words_in reading) s.now) }
    ensures codes { codes.new ≡ sets codes.old 0 (codes_of (front (words_in reading) s.now)) }
    ensures starts { starts.new ≡ sets starts.old 0 (starts_of (front (words_in reading) s.now)) }
    ensures bounds { Placed (length s.now) result }
{
    if 256 < s.len() {
        return Err(Refusal::from(Reason::TooLong));
    }
    lex_in(Words::of(reading), s, codes, starts)
}

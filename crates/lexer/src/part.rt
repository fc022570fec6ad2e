// The offending part of the caller's own phrase.
ghost use Rattle.std.specs.Prelude.{◌≡◌, ◌+◌, ◌≤◌, length};
ghost use Rattle.lexer.specs.Keywords.{words_in};
ghost use Rattle.lexer.specs.Lex.{lexed};
ghost use Rattle.refusals.specs.Answers.{between, place_of, offending_of};

use super::lex::lex;
use super::reading::Reading;

// The bytes from a up to e, where they stand in the phrase.
pub fn part(s: &[u8], a: usize, e: usize) -> &[u8]
    requires { (a ≤ e) × (e ≤ length s.now) }
    ensures result_value { result.now ≡ between s.now a e }
    ensures own { result.ref_ptr ≡ (s.entry.ref_ptr.0, a + s.entry.ref_ptr.1) }
{
    &s[a..e]
}

// The word, byte or digits that lexing refuses in one of the readings, where they stand in the phrase; empty where the phrase is too long or is not refused.
pub fn offending(reading: Reading, s: &[u8]) -> &[u8]
    ensures result_value { result.now ≡ offending_of s.now (lexed (words_in reading) s.now) }
    ensures own { result.ref_ptr ≡ (s.entry.ref_ptr.0, place_of (lexed (words_in reading) s.now) + s.entry.ref_ptr.1) }
{
    let mut codes = [0u64; 64];
    let mut starts = [0u8; 64];
    match lex(reading, s, &mut codes, &mut starts) {
        Ok(_) => part(s, 0, 0),
        Err(refusal) => part(s, refusal.place, refusal.end),
    }
}

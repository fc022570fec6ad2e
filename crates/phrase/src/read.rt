// A phrase of bytes read whole, or refused.
ghost use Rattle.std.specs.Prelude.{◌≡◌, ◌+◌};
ghost use Rattle.lexer.specs.Keywords.{words_in};
ghost use Rattle.refusals.specs.Answers.{place_of, offending_of};
ghost use Rattle.phrase.specs.Read.{read_of, phrase_answer};

use super::chain::Chain;
use super::gather::gather;
use lexer::lex::lex;
use lexer::part::part;
use lexer::reading::Reading;
use refusals::{Reason, Refusal};

// The chain of a phrase, and the lexemes taken.
#[derive(Clone, Copy)]
pub struct PhraseRead {
    pub chain: Chain,
    pub taken: usize,
}

// A phrase read: its tree in one of the readings, or a refusal of 1 to 7 in their order. What is left behind the reading is refusal 7, from its first byte to
// the end of the phrase.
pub fn read(reading: Reading, phrase: &[u8]) -> Result<PhraseRead, Refusal>
    ensures { result ≡ phrase_answer (read_of reading (words_in reading) phrase.now) }
{
    let mut codes = [0u64; 64];
    let mut starts = [0u8; 64];
    let n = lex(reading, phrase, &mut codes, &mut starts)?;
    match gather(reading, &codes[..n], n) {
        Ok(Some(g)) if g.taken < n => Err(Refusal {
            reason: Reason::LeftOver,
            place: usize::from(starts[g.taken]),
            end: phrase.len(),
        }),
        Ok(Some(g)) => Ok(PhraseRead {
            chain: g.chain,
            taken: g.taken,
        }),
        Ok(None) => Err(Refusal::from(Reason::Nothing)),
        Err(_) => Err(Refusal::from(Reason::LargeSum)),
    }
}

// The offending part of the caller's own phrase; empty where nothing is refused.
pub fn offending(reading: Reading, phrase: &[u8]) -> &[u8]
    ensures result_value { result.now ≡ offending_of phrase.now (read_of reading (words_in reading) phrase.now) }
    ensures own { result.ref_ptr ≡ (phrase.entry.ref_ptr.0, place_of (read_of reading (words_in reading) phrase.now) + phrase.entry.ref_ptr.1) }
{
    match read(reading, phrase) {
        Ok(_) => part(phrase, 0, 0),
        Err(refusal) => part(phrase, refusal.place, refusal.end),
    }
}

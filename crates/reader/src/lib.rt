// A reader that holds the phrase and its place: a thin layer over the lexer's functions on a slice and a number, and lexing by it.
#![tactic(auto)]

ghost use Rattle.std.specs.Prelude.{◌≡◌, ◌+◌, length, drop};
ghost use Rattle.std.proofs.lemmas.List.Edits.{sets};
ghost use Rattle.lexer.specs.Keywords.{words_in};
ghost use Rattle.lexer.specs.Lex.{lexed, lex_from, front_from, front, codes_of, starts_of, ended_of, Placed};
ghost use Rattle.reader.specs.Read.{new_of, next_of, behind_of, rest_start};

use lexer::lex::{Token, token_at};
use lexer::part::part;
use lexer::reading::Reading;
use refusals::{Reason, Refusal};

// One of the readings, a phrase, and the place from which it is read on.
#[derive(Clone, Copy)]
pub struct Lexer<'a> {
    reading: Reading,
    phrase: &'a [u8],
    at: usize,
}

impl<'a> Lexer<'a> {
    // A reader at the start of a phrase.
    pub fn new(reading: Reading, phrase: &'a [u8]) -> Lexer<'a>
        ensures { result ≡ new_of reading phrase.entry }
    {
        Lexer {
            reading,
            phrase,
            at: 0,
        }
    }

    // The next lexeme, none at the end, or a refusal.
    pub fn next(self) -> Result<Option<Token>, Refusal>
        ensures { result ≡ next_of self.entry }
    {
        token_at(self.reading, self.phrase, self.at)
    }

    // The reader behind what `next` gave: the same reading and borrow, at its end; past the end of the phrase there is none, and the place stays.
    pub fn behind(self, given: Result<Option<Token>, Refusal>) -> Lexer<'a>
        ensures { result ≡ behind_of self.entry given }
    {
        let at = match given {
            Ok(None) => self.at,
            Ok(Some(token)) => token.end,
            Err(refusal) => refusal.end,
        };
        Lexer { at, ..self }
    }

    // Where it stands.
    pub fn place(self) -> usize
        ensures { result ≡ self.entry.at }
    {
        self.at
    }

    // What is not read yet, as a part of the caller's phrase; past the last byte nothing is.
    pub fn unread(self) -> &'a [u8]
        ensures result_value { result.now ≡ drop self.entry.at self.entry.phrase.now }
        ensures own { result.ref_ptr ≡ (self.entry.phrase.ref_ptr.0, rest_start self.entry + self.entry.phrase.ref_ptr.1) }
    {
        let phrase = self.phrase;
        part(phrase, self.at.min(phrase.len()), phrase.len())
    }
}

// A phrase's lexemes in one of the readings, left to right, up to the end or the first refusal, by a reader: what `lex` of the lexer answers and stores.
pub fn lex(
    reading: Reading,
    phrase: &[u8],
    codes: &mut [u64; 64],
    starts: &mut [u8; 64],
) -> Result<usize, Refusal>
    ensures value { result ≡ ended_of (lexed (words_in reading) phrase.now) }
    ensures codes { codes.new ≡ sets codes.old 0 (codes_of (front (words_in reading) phrase.now)) }
    ensures starts { starts.new ≡ sets starts.old 0 (starts_of (front (words_in reading) phrase.now)) }
    ensures bounds { Placed (length phrase.now) result }
{
    if 256 < phrase.len() {
        return Err(Refusal::from(Reason::TooLong));
    }
    let mut reader = Lexer::new(reading, phrase);
    let mut count: usize = 0;
    while let Some(token) = reader.next()? {
        if count == 64 {
            return Err(Refusal {
                reason: Reason::TooMany,
                place: token.start,
                end: token.end,
            });
        }
        codes[count] = token.code;
        starts[count] = token.start as u8;
        count += 1;
        reader = reader.behind(Ok(Some(token)));
    }
    Ok(count)
}

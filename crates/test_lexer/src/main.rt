// Lexes every single byte as a phrase, then each line of standard input, in the first reading and then in the second, and writes three lines
// for each: what the lexer answers, what lexing by a reader answers, and where a reader stands behind the first token, with the unread rest.
// An answer is the lexemes' codes with their places, or the refusal with its place, the end of its part and the part.
#![tactic(auto)]

use lexer::lex::lex;
use lexer::part::offending;
use lexer::reading::Reading;
use reader::Lexer;
use refusals::Refusal;
use std::io;
use test_input::{each_line, read_full};

// The lexemes, `118@0 123@5`.
fn write_lexemes(
    rt: &impl Print,
    codes: &[u64; 64],
    starts: &[u8; 64],
    count: usize,
) -> io::Result<()> {
    for (i, (code, start)) in codes.iter().zip(starts).take(count).enumerate() {
        let blank = if i == 0 { "" } else { " " };
        print!(rt; "{blank}{code}@{start}")?;
    }
    Ok(())
}

// A refusal, `refused 2 at 3 to 8 part forty`.
fn write_refusal(rt: &impl Print, refusal: Refusal, part: &[u8]) -> io::Result<()> {
    let Refusal { reason, place, end } = refusal;
    print!(rt; "refused {} at {place} to {end} part ", reason.number())?;
    rt.write_all(part)
}

// What lexing answers to a phrase, in lent arrays.
fn write_lexed<L>(rt: &impl Print, reading: Reading, phrase: &[u8], lex: L) -> io::Result<()>
where
    L: Fn(Reading, &[u8], &mut [u64; 64], &mut [u8; 64]) -> Result<usize, Refusal>,
    requires { L.IsAlwaysCallable lex }
{
    let mut codes = [0u64; 64];
    let mut starts = [0u8; 64];
    match lex(reading, phrase, &mut codes, &mut starts) {
        Ok(count) => write_lexemes(rt, &codes, &starts, count)?,
        Err(refusal) => write_refusal(rt, refusal, offending(reading, phrase))?,
    }
    println!(rt)
}

// Where a reader stands behind the first token of a phrase, and the unread rest, `behind 4 rest  friday`.
fn write_behind(rt: &impl Print, reading: Reading, phrase: &[u8]) -> io::Result<()> {
    let first = Lexer::new(reading, phrase);
    let r = first.behind(first.next());
    print!(rt; "behind {} rest ", r.place())?;
    rt.write_all(r.unread())?;
    println!(rt)
}

// What lexing answers to a phrase, and what lexing by a reader does.
fn write_answer(rt: &impl Print, reading: Reading, phrase: &[u8]) -> io::Result<()> {
    write_lexed(rt, reading, phrase, lex)?;
    write_lexed(rt, reading, phrase, reader::lex)?;
    write_behind(rt, reading, phrase)
}

// Every single byte and each line as a phrase, in one of the readings.
fn write_in(rt: &impl Print, reading: Reading, text: &[u8]) -> io::Result<()> {
    for b in 0u8..=255 {
        write_answer(rt, reading, &[b])?;
    }
    each_line(text, &mut |line| write_answer(rt, reading, line))
}

// Standard input has fewer than 65,536 bytes: data/expected.py, which writes it, sees to that.
fn main(rt: HostRuntime) -> io::Result<()> {
    let mut input = rt.reader();
    let mut text = [0u8; 65536];
    let n = read_full(&mut input, &mut text)?;
    write_in(&rt, Reading::First, &text[..n])?;
    write_in(&rt, Reading::Second, &text[..n])
}

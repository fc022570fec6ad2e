// Looks up every single byte as a word, then each line of standard input, in the first reading and then in the second, and writes a line for
// each: the lexeme's code, 0 where there is none, and how many rows of the table the word was compared with. The last lines have no such reading.
#![tactic(auto)]

use fuzzydate::fuzzy_find_word;
use std::io;
use test_input::{each_line, read_full};

// What is found for a word, a code and a count, `123 7`; or its refusal with what the lent numbers still are.
fn write_word(rt: &impl Print, reading: u32, word: &[u8]) -> io::Result<()> {
    let mut found = [1000u32, 1001u32];
    let answer = fuzzy_find_word(reading, word, &mut found);
    if answer != 0 {
        print!(rt; "refused {answer} ")?;
    }
    let [code, count] = found;
    println!(rt; "{code} {count}")
}

// Every single byte and each line as a word, in one of the readings.
fn write_in(rt: &impl Print, reading: u32, text: &[u8]) -> io::Result<()> {
    for b in 0u8..=255 {
        write_word(rt, reading, &[b])?;
    }
    each_line(text, &mut |line| write_word(rt, reading, line))
}

// Standard input has fewer than 65,536 bytes: data/expected.py, which writes it, sees to that.
fn main(rt: HostRuntime) -> io::Result<()> {
    let mut input = rt.reader();
    let mut text = [0u8; 65536];
    let n = read_full(&mut input, &mut text)?;
    write_in(&rt, 1, &text[..n])?;
    write_in(&rt, 2, &text[..n])?;
    write_word(&rt, 0, b"now")?;
    write_word(&rt, 3, b"now")?;
    write_word(&rt, u32::MAX, b"")
}

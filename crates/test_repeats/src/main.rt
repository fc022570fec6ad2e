// Lists the occurrences of rules. Reads lines `YYYY-MM-DD HH:MM:SS mmmm nnnn RULE` on standard input, a start with its milliseconds, so many
// numbers of room and a rule, and writes for each the refusal's number, the count of rows and the rows; then the number that stands behind them.
#![tactic(auto)]

use calendar::fixed::moment_in;
use fuzzydate::fuzzy_list_in;
use std::io;
use test_input::{each_line_of, four};

// Before the rule a line has this many bytes.
const HEAD: usize = 30;

// Where the count of rows stands in an answer.
const COUNT: u64 = 4294967296;

// Rows, a bar before each. Only the first six and the last six are written.
fn write_rows(rt: &impl Print, rows: &[[u32; 7]]) -> io::Result<()> {
    let left_out = 6..rows.len().saturating_sub(6);
    for (k, row) in rows.iter().enumerate() {
        if !left_out.contains(&k) {
            let [year, month, day, hour, minute, second, millisecond] = *row;
            print!(rt; "|{year} {month} {day} {hour} {minute} {second} {millisecond}")?;
        }
    }
    Ok(())
}

// An answer, the rows that it counts, and the number behind them.
fn write_answer(rt: &impl Print, answer: u64, moments: &[u32]) -> io::Result<()> {
    let count = answer / COUNT;
    print!(rt; "{} {count}", answer % 65536)?;
    if let Some((listed, [behind, ..])) = moments.split_at_checked((7 * count) as usize) {
        write_rows(rt, listed.as_chunks::<7>().0)?;
        print!(rt; "|{behind}")?;
    }
    println!(rt)
}

// What is listed of a line's rule from its start on, in the front of an array full of sevens that has a number more than any room.
fn write_line(rt: &impl Print, line: &[u8]) -> io::Result<()> {
    let (Some(milliseconds), Some(room), Some(rule)) = (
        four(line, 20),
        four(line, 25),
        line.get(HEAD..),
    ) else {
        return Ok(());
    };
    let mut moments = [7u32; 7169];
    if let Some(lent) = moments.get_mut(..room as usize) {
        let answer = fuzzy_list_in(rule, &moment_in(line, milliseconds).into(), lent);
        write_answer(rt, answer, &moments)?;
    }
    Ok(())
}

// Standard input has up to four pieces: data/expected.py, which writes it, sees to that. An empty one ends nothing: at a terminal more may follow.
fn main(rt: HostRuntime) -> io::Result<()> {
    let mut input = rt.reader();
    for _ in 0..4 {
        each_line_of(&mut input, 1, |line| write_line(&rt, line))?;
    }
    Ok(())
}

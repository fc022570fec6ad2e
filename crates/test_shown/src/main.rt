// Shows moments as phrases and reads these back in both readings, one a line. What it must print is made by Python's datetime and the paper's
// model (data/expected.py).
#![tactic(auto)]

use answer::answer;
use calendar::moments::Moment;
use lexer::reading::Reading;
use shown::write_phrase;
use std::io;
use std::ops::Range;
use test_print::moments::MomentText;

// The numbers of the first days of years.
const YEAR_999: u32 = 364512;

const YEAR_2001: u32 = 730485;

const YEAR_9999: u32 = 3651694;

// The seven numbers of moments, and the room for each: exactly enough and a byte too few, and which refusal comes first.
#[rattlefmt::skip]
static ROOMS: [([u32; 7], usize); 16] = [
    ([1, 5, 1, 0, 0, 0, 0], 27),
    ([1, 5, 1, 0, 0, 0, 0], 15),
    ([1, 5, 1, 0, 0, 0, 0], 14),
    ([2026, 9, 30, 23, 59, 0, 0], 27),
    ([2026, 9, 30, 23, 59, 0, 0], 26),
    ([2026, 9, 30, 23, 59, 0, 0], 25),
    ([2026, 9, 30, 23, 59, 1, 0], 0),
    ([2026, 9, 30, 23, 59, 0, 1], 0),
    ([2026, 9, 30, 23, 59, 59, 999], 27),
    ([2026, 9, 30, 23, 59, 60, 0], 0),
    ([2026, 9, 30, 23, 59, 0, 1000], 27),
    ([2026, 2, 29, 0, 0, 0, 0], 0),
    ([0, 5, 1, 0, 0, 0, 0], 27),
    ([10000, 5, 1, 0, 0, 0, 0], 27),
    ([2026, 0, 1, 0, 0, 0, 0], 27),
    ([2026, 13, 1, 0, 0, 0, 0], 27),
];

// What a phrase gives in one of the readings, at the last moment of the calendar.
fn write_back(rt: &impl Print, reading: Reading, phrase: &[u8]) -> io::Result<()> {
    match answer(reading, phrase, Moment::last()) {
        Ok(t) => print!(rt; "|{}", MomentText(t)),
        Err(r) => print!(rt; "|refused {} at {}", r.reason.number(), r.place),
    }
}

// A moment as a phrase, and what that gives in both readings.
fn there_and_back(rt: &impl Print, t: Moment) -> io::Result<()> {
    let mut text = [0u8; 26];
    let size = write_phrase(t, &mut text).unwrap_or(0);
    let phrase = text.get(..size).unwrap_or(&text);
    rt.write_all(phrase)?;
    write_back(rt, Reading::First, phrase)?;
    write_back(rt, Reading::Second, phrase)?;
    println!(rt)
}

// Days, each at a time of day of its own.
fn days(rt: &impl Print, numbers: Range<u32>) -> io::Result<()> {
    for n in numbers {
        if let Ok(t) = Moment::first().on_day(n) {
            there_and_back(rt, t.with_time(n % 24, n % 60, 0, 0))?;
        }
    }
    Ok(())
}

// A moment in so many bytes of a buffer full of dots: the whole buffer, the refusal's number and the count.
fn written(rt: &impl Print, t: Moment, room: usize) -> io::Result<()> {
    let mut text = *b"...........................";
    let Some(lent) = text.get_mut(..room) else {
        return Ok(());
    };
    let (number, count) = match write_phrase(t, lent) {
        Ok(count) => (0, count),
        Err(reason) => (reason.number(), 0),
    };
    rt.write_all(&text)?;
    println!(rt; " {number} {count}")
}

fn main(rt: HostRuntime) -> io::Result<()> {
    days(&rt, 0..365)?;
    days(&rt, YEAR_999..YEAR_999 + 730)?;
    days(&rt, YEAR_2001..YEAR_2001 + 10227)?;
    days(&rt, YEAR_9999..YEAR_9999 + 365)?;
    for (numbers, room) in ROOMS {
        written(&rt, Moment::from(numbers), room)?;
    }
    Ok(())
}

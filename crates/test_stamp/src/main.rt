// Writes and reads stamps, and reads changed texts, one a line. What it must print is made by Python's datetime (data/expected.py).
#![tactic(auto)]

use calendar::moments::Moment;
use changes::write_changes;
use print::write_line;
use stamp::write::write_stamp;
use stamp::{Offset, Stamp};
use std::io;

mod changes;
mod print;

// The number of the day 2023-01-01.
const FIRST_DAY: u32 = 738520;

// Years, milliseconds and offsets, and the room for each: exactly enough and a byte too few, and which refusal comes first.
#[rattlefmt::skip]
static ROOMS: [(u32, u32, Offset, usize); 17] = [
    (2024, 0, Offset { west: 0, minutes: 0 }, 30),
    (2024, 0, Offset { west: 0, minutes: 0 }, 20),
    (2024, 0, Offset { west: 0, minutes: 0 }, 19),
    (2024, 0, Offset { west: 0, minutes: 1439 }, 25),
    (2024, 0, Offset { west: 0, minutes: 1439 }, 24),
    (2024, 0, Offset { west: 1, minutes: 0 }, 25),
    (2024, 0, Offset { west: 1, minutes: 0 }, 24),
    (2024, 1, Offset { west: 0, minutes: 0 }, 24),
    (2024, 1, Offset { west: 0, minutes: 0 }, 23),
    (2024, 999, Offset { west: 1, minutes: 1439 }, 30),
    (2024, 999, Offset { west: 1, minutes: 1439 }, 29),
    (2024, 999, Offset { west: 1, minutes: 1439 }, 28),
    (2024, 999, Offset { west: 0, minutes: 1440 }, 0),
    (2024, 1, Offset { west: 2, minutes: 0 }, 0),
    (2026, 0, Offset { west: 2, minutes: 1440 }, 0),
    (2024, 1000, Offset { west: 2, minutes: 1440 }, 0),
    (0, 0, Offset { west: 0, minutes: 0 }, 30),
];

// Texts at the edges of the grammar.
static EDGES: [&str; 36] = [
    "2024-02-29t23:59:59z",
    "2024-02-29T23:59:59+24:00",
    "2024-02-29T23:59:59-24:00",
    "2024-02-29T23:59:59+23:60",
    "2026-02-29T23:59:59Z",
    "2024-00-29T23:59:59Z",
    "2024-13-29T23:59:59Z",
    "2024-02-00T23:59:59Z",
    "2024-02-29T24:00:00Z",
    "2024-02-29T23:60:59Z",
    "2024-02-29T23:59:60Z",
    "0000-02-29T00:00:00Z",
    "0000-02-30T00:00:00Z",
    "0000-02-29T00:00:00+24:00",
    "2024-02-29 23:59:59Z",
    "2024-02-29T23:59:59",
    "2024-02-29T23:59:59.5Z",
    "2024-02-29T23:59:59.05z",
    "2024-02-29T23:59:59.005Z",
    "2024-02-29T23:59:59.0005Z",
    "2024-02-29T23:59:59.000Z",
    "2024-02-29T23:59:59.Z",
    "2024-02-29T23:59:59.-01:00",
    "2024-02-29T23:59:59.9-01:00",
    "2024-02-29T23:59:59.99+01:00",
    "2024-02-29T23:59:59.999-00:00",
    "2024-02-29T23:59:59.9999+01:00",
    "2024-02-29T23:59:59,5Z",
    "2024-02-29T23:59:59.5",
    "2024-02-29T23:59:60.5Z",
    "0000-02-29T23:59:59.5Z",
    "2024-02-29T23:59:59.5+24:00",
    "2024-02-29T23:59:59ZZ",
    "2024-02-29T23:59:59+00:000",
    "2024-02-29T23:59:59Z\n",
    "",
];

// A stamp as text, and what that is read as.
fn there_and_back(rt: &impl Print, stamp: Stamp) -> io::Result<()> {
    let mut text = [0u8; 29];
    let size = write_stamp(stamp, &mut text).unwrap_or(0);
    write_line(rt, text.get(..size).unwrap_or(&text))
}

// A day, at a time of day of its own.
fn day(rt: &impl Print, n: u32) -> io::Result<()> {
    let Ok(t) = Moment::first().on_day(n) else {
        return Ok(());
    };
    let moment = t.with_time(n % 24, n % 60, n % 59, n % 1000);
    let offset = Offset {
        west: 0,
        minutes: 0,
    };
    there_and_back(rt, Stamp { moment, offset })
}

// The days of 2023 and 2024.
fn days(rt: &impl Print) -> io::Result<()> {
    for n in FIRST_DAY..FIRST_DAY + 731 {
        day(rt, n)?;
    }
    Ok(())
}

// The last second of 29 February of a year, with so many milliseconds.
fn february(year: u32, ms: u32) -> Moment {
    Moment::last()
        .with_date(year, 2, 29)
        .with_time(23, 59, 59, ms)
}

// All offsets to one side, and all milliseconds.
fn offsets(rt: &impl Print, west: u32) -> io::Result<()> {
    for minutes in 0..1440 {
        let moment = february(2024, minutes % 1000);
        let offset = Offset { west, minutes };
        there_and_back(rt, Stamp { moment, offset })?;
    }
    Ok(())
}

// A stamp in so many bytes of a buffer full of dots: the whole buffer, the refusal's number and the count.
fn written(rt: &impl Print, stamp: Stamp, room: usize) -> io::Result<()> {
    let mut text = *b"..............................";
    let Some(lent) = text.get_mut(..room) else {
        return Ok(());
    };
    let (number, count) = match write_stamp(stamp, lent) {
        Ok(count) => (0, count),
        Err(reason) => (reason.number(), 0),
    };
    rt.write_all(&text)?;
    println!(rt; " {number} {count}")
}

// Each room and each edge.
fn tables(rt: &impl Print) -> io::Result<()> {
    for (year, ms, offset, room) in ROOMS.iter().copied() {
        let moment = february(year, ms);
        written(rt, Stamp { moment, offset }, room)?;
    }
    for text in EDGES {
        write_line(rt, text.as_bytes())?;
    }
    Ok(())
}

fn main(rt: HostRuntime) -> io::Result<()> {
    days(&rt)?;
    offsets(&rt, 0)?;
    offsets(&rt, 1)?;
    tables(&rt)?;
    write_changes(&rt, *b"0004-02-29T23:59:59Z")?;
    write_changes(&rt, *b"2024-02-29T12:34:56-05:30")?;
    write_changes(&rt, *b"2024-02-29T12:34:56.070+05:30")
}

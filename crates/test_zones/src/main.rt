// Reads phrases at instants of zones. Reads lines on standard input, numbers and bytes in hexadecimal: `Z` has a zone's file, `A`
// bytes to put behind it; `S` and a place with two digits behind it changes one byte, `T` and a length cuts or uncuts the file, `F` and a length with two
// digits behind it fills it up with a byte; `@` and `M` have an instant's second, as two's complement, and its millisecond. A digit and a phrase reads it
// in the reading of that number, `a` or `b` makes it ready in reading 1 or 2 and runs it, `R` runs records, `W` and a second reads "now" there and at the
// two seconds behind it. Writes for each of these 0, or the refusal's number, place and length, then the second and the nine numbers of the lent arrays.
#![tactic(auto)]

ghost use Rattle.std.specs.Prelude.{◌<◌};

use fuzzydate::{fuzzy_make_ready, fuzzy_read_in_zone, fuzzy_run_in_zone};
use std::io;
use test_input::each_line_of;

// Where the length stands in an answer.
const LENGTH: u64 = 4294967296;

// The pieces of standard input that are read at most.
const PIECES: u64 = 4096;

// An answer: 0, or a refusal's number, place and length.
fn write_answer(rt: &impl Print, answer: u64) -> io::Result<()> {
    if answer == 0 {
        return print!(rt; "0");
    }
    print!(rt;
        "{} {} {}",
        answer % 65536,
        answer / 65536 % 65536,
        answer / LENGTH
    )
}

// An answer with what the lent arrays have.
fn write_due(rt: &impl Print, answer: u64, due: [u64; 1], moment: [u32; 9]) -> io::Result<()> {
    write_answer(rt, answer)?;
    print!(rt; " {}", due[0])?;
    for n in moment {
        print!(rt; " {n}")?;
    }
    Ok(())
}

// The number of a hexadecimal digit.
fn nibble(digit: u8) -> u8
    ensures { result < 16 }
{
    if digit <= b'9' {
        digit % 16
    } else {
        (digit % 16 + 9) % 16
    }
}

// The number of all digits; of more than sixteen the last count.
fn number_of(text: &[u8]) -> u64 {
    text.iter()
        .fold(0, |n, digit| (n << 4) | u64::from(nibble(*digit)))
}

// The bytes of hexadecimal digits, as many as there is room for.
fn put_bytes(text: &[u8], room: &mut [u8]) {
    for (b, pair) in room.iter_mut().zip(text.as_chunks::<2>().0) {
        let [high, low] = *pair;
        *b = (nibble(high) << 4) | nibble(low);
    }
}

// A zone's file and an instant.
#[derive(Clone, Copy)]
struct World<'a> {
    zone: &'a [u8],
    second: u64,
    millisecond: u32,
}

impl World<'_> {
    // A phrase read.
    fn write_read(self, rt: &impl Print, reading: u32, phrase: &[u8]) -> io::Result<()> {
        let mut due = [7u64; 1];
        let mut moment = [7u32; 9];
        let answer = fuzzy_read_in_zone(
            reading,
            phrase,
            self.zone,
            self.second,
            self.millisecond,
            &mut due,
            &mut moment,
        );
        write_due(rt, answer, due, moment)
    }

    // Records run.
    fn write_run(self, rt: &impl Print, ready: &[u8]) -> io::Result<()> {
        let mut due = [7u64; 1];
        let mut moment = [7u32; 9];
        let answer = fuzzy_run_in_zone(
            ready,
            self.zone,
            self.second,
            self.millisecond,
            &mut due,
            &mut moment,
        );
        write_due(rt, answer, due, moment)
    }

    // Records run that are given in hexadecimal.
    fn write_records(self, rt: &impl Print, text: &[u8]) -> io::Result<()> {
        let mut ready = [0u8; 4096];
        put_bytes(text, &mut ready);
        match ready.get(..text.len() / 2) {
            Some(records) => self.write_run(rt, records),
            None => Ok(()),
        }
    }

    // A phrase made ready, and run where it is not refused.
    fn write_ready(self, rt: &impl Print, reading: u32, phrase: &[u8]) -> io::Result<()> {
        let mut ready = [0u8; 384];
        let made = fuzzy_make_ready(reading, phrase, &mut ready);
        if made % LENGTH != 0 {
            return write_answer(rt, made);
        }
        match ready.get(..(made / LENGTH) as usize) {
            Some(records) => self.write_run(rt, records),
            None => Ok(()),
        }
    }

    // "now" at three seconds, one behind the other.
    fn write_walk(self, rt: &impl Print, second: u64) -> io::Result<()> {
        if second >= u64::MAX - 2 {
            return Ok(());
        }
        World { second, ..self }.write_read(rt, 1, b"now")?;
        for i in 1..3 {
            rt.write_all(b"|")?;
            World {
                second: second + i,
                ..self
            }
            .write_read(rt, 1, b"now")?;
        }
        Ok(())
    }

    // A call.
    fn write_call(self, rt: &impl Print, kind: u8, rest: &[u8]) -> io::Result<()> {
        match kind {
            b'W' => self.write_walk(rt, number_of(rest)),
            b'R' => self.write_records(rt, rest),
            0..=b'9' => self.write_read(rt, u32::from(kind % 16), rest),
            _ => self.write_ready(rt, u32::from(kind % 32), rest),
        }
    }
}

// What calls are made on: room for a zone's file, how many bytes it has, and an instant.
#[derive(Drop)]
struct State {
    bytes: [u8; 65600],
    size: usize,
    second: u64,
    millisecond: u32,
}

impl State {
    // Bytes put behind the first so many.
    fn put_behind(&mut self, rest: &[u8], from: usize) {
        if let Some(room) = self.bytes.get_mut(from..) {
            put_bytes(rest, room);
            self.size = from + rest.len() / 2;
        }
    }

    // One byte changed.
    fn set(&mut self, at: usize, b: u8) {
        if at < self.bytes.len() {
            self.bytes[at] = b;
        }
    }

    // The file filled up with a byte.
    fn fill(&mut self, size: usize, b: u8) {
        let end = size.min(self.bytes.len());
        if let Some(part) = self.bytes.get_mut(self.size..end) {
            part.fill(b);
        }
        self.size = size;
    }

    // A call on the file that is there, with a line feed.
    fn write_call(&self, rt: &impl Print, kind: u8, rest: &[u8]) -> io::Result<()> {
        let Some(zone) = self.bytes.get(..self.size) else {
            return Ok(());
        };
        let world = World {
            zone,
            second: self.second,
            millisecond: self.millisecond,
        };
        world.write_call(rt, kind, rest)?;
        println!(rt)
    }

    // What a line changes, or its call; an empty one is passed over.
    fn take(&mut self, rt: &impl Print, line: &[u8]) -> io::Result<()> {
        let Some((kind, rest)) = line.split_first() else {
            return Ok(());
        };
        let n = number_of(rest);
        match *kind {
            b'Z' => self.put_behind(rest, 0),
            b'A' => self.put_behind(rest, self.size),
            b'S' => self.set((n / 256) as usize, (n % 256) as u8),
            b'F' => self.fill((n / 256) as usize, (n % 256) as u8),
            b'T' => self.size = n as usize,
            b'@' => self.second = n,
            b'M' => self.millisecond = (n % LENGTH) as u32,
            call => return self.write_call(rt, call, rest),
        }
        Ok(())
    }
}

// oracle/zones.py writes standard input.
fn main(rt: HostRuntime) -> io::Result<()> {
    let mut state = State {
        bytes: [0; 65600],
        size: 0,
        second: 0,
        millisecond: 0,
    };
    each_line_of(&mut rt.reader(), PIECES, |line| state.take(&rt, line))
}

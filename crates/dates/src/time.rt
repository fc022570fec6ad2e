// The readers of a time of day.
ghost use Rattle.std.specs.Prelude.{◌≡◌, length};
ghost use Rattle.dates.specs.Parsed.{is, parsed, parsed_found, Took};
ghost use Rattle.dates.specs.Times.{minute_of, half_of, clock_of, time_of};

use lexer::lexeme::{AM, COLON, MIDNIGHT, NOON, PM};
use lexer::reading::Reading;
use numbers::slices::{is_at, rest};
use numbers::{Found, Overflow, num};

// `enum Time`
#[derive(Clone, Copy)]
pub enum Time {
    HourMin(u32, u32),
    HourMinAM(u32, u32),
    HourMinPM(u32, u32),
    Empty,
}

// [: [<num>]]: the minute, 0 where it is not said, and the lexemes taken; a colon is taken also with no number behind it.
#[tactic(auto, using(crate::proofs::LexemesTaken::minute_took), unfolding(crate::specs::Times::minute_of))]
fn read_minute(reading: Reading, l: &[u64]) -> Result<(u32, usize), Overflow>
    ensures result_value { parsed_found result ≡ minute_of reading l.now }
    ensures took { Took (parsed_found result) 0 (length l.now) }
{
    if !is_at(l, 0, COLON) {
        return Ok((0, 0));
    }
    let Some(minute) = num(reading, rest(l, 1))? else {
        return Ok((0, 1));
    };
    Ok((minute.value, 1 + minute.taken))
}

// [am | pm] behind hour and minute, which end at t.
#[tactic(auto, unfolding(crate::specs::Times::half_of))]
fn read_half(l: &[u64], hour: u32, minute: u32, t: usize) -> (Time, usize)
    ensures { is result.0 result.1 ≡ half_of hour minute t l.now }
{
    if is_at(l, t, AM) {
        return (Time::HourMinAM(hour, minute), t + 1);
    }
    if is_at(l, t, PM) {
        return (Time::HourMinPM(hour, minute), t + 1);
    }
    (Time::HourMin(hour, minute), t)
}

// <num> [: [<num>]] [am | pm]
#[tactic(auto, unfolding(crate::specs::Times::clock_of))]
fn read_clock(reading: Reading, l: &[u64]) -> Found<Time>
    ensures { parsed result ≡ clock_of reading l.now }
{
    let Some(hour) = num(reading, l)? else {
        return Ok(None);
    };
    let (minute, u) = read_minute(reading, rest(l, hour.taken))?;
    Ok(Some(read_half(l, hour.value, minute, hour.taken + u)))
}

// Time::parse; nothing is tried where no lexeme is left.
#[tactic(auto, using(crate::proofs::LexemesTaken::time_took, crate::proofs::LexemesTaken::time_none), unfolding(crate::specs::Times::time_of))]
pub fn read_time(reading: Reading, l: &[u64]) -> Found<Time>
    ensures result_value { parsed result ≡ time_of reading l.now }
    ensures took { Took (parsed result) 1 (length l.now) }
{
    if l.is_empty() {
        return Ok(None);
    }
    if is_at(l, 0, MIDNIGHT) {
        return Ok(Some((Time::HourMin(0, 0), 1)));
    }
    if is_at(l, 0, NOON) {
        return Ok(Some((Time::HourMin(12, 0), 1)));
    }
    read_clock(reading, l)
}

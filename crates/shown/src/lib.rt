// A moment as a phrase that can be read and edited, written into a lent buffer.
#![tactic(auto)]

ghost use Rattle.std.specs.Prelude.{◌≡◌, ◌∷◌, ◌++◌, ◌+◌, ◌≤◌, length};
ghost use Rattle.std.proofs.lemmas.List.Edits.{sets};
ghost use Rattle.refusals.specs.Writings.{fitted, wrote_of, buffer_of};
ghost use Rattle.digits.specs.Digits.{width_of, decimal_of};
ghost use Rattle.shown.specs.Phrases.{rest_text, month_name, phrase_text, is_whole, shown_of};

use calendar::moments::Moment;
use digits::digit::width;
use digits::put::{put_bytes, put_number, put_pair};
use refusals::Reason;

// True where second and millisecond are 0.
fn is_whole(t: Moment) -> bool
    ensures { result ≡ is_whole t }
{
    t.second == 0 && t.millisecond == 0
}

// How many bytes stand behind the month's name: two blanks, " at " and a colon with two digits, and three numbers.
fn rest_size(t: Moment) -> usize
    ensures { (result ≡ length (rest_text t)) × (result ≤ 69) }
{
    9 + width(t.day as u64) + width(t.year as u64) + width(t.hour as u64)
}

// A blank and a number, written from a place on; the place behind them.
fn put_spaced(out: &mut [u8], at: usize, n: u32) -> usize
    requires { at + 1 + width_of n ≤ length out.old }
    ensures { (result ≡ at + 1 + width_of n) × (out.new ≡ sets out.old at (32 ∷ decimal_of n)) }
{
    out[at] = b' ';
    put_number(out, at + 1, n as u64)
}

// Day, year and time of day, written from a place on, behind the month's name.
fn put_rest(out: &mut [u8], at: usize, t: Moment)
    requires { at + length (rest_text t) ≤ length out.old }
    ensures { out.new ≡ sets out.old at (rest_text t) }
{
    let year = put_spaced(out, at, t.day);
    let link = put_spaced(out, year, t.year);
    put_bytes(out, link, b" at ");
    let colon = put_number(out, link + 4, t.hour as u64);
    put_pair(out, colon, b':', t.minute);
}

// The name of month m, and none for any other number.
#[tactic(auto, unfolding(crate::specs::Phrases::month_name, crate::specs::Phrases::month_names))]
fn month_name(m: u32) -> &'static [u8]
    ensures { (result.now ≡ month_name m) × (length result.now ≤ 9) }
{
    match m {
        1 => b"january",
        2 => b"february",
        3 => b"march",
        4 => b"april",
        5 => b"may",
        6 => b"june",
        7 => b"july",
        8 => b"august",
        9 => b"september",
        10 => b"october",
        11 => b"november",
        12 => b"december",
        _ => b"",
    }
}

// The phrase at the front of a lent buffer: 17 where that is too short.
fn put_phrase(out: &mut [u8], t: Moment) -> Result<usize, Reason>
    ensures value { result ≡ wrote_of (fitted (phrase_text t) (length out.old)) }
    ensures buffer { out.new ≡ buffer_of out.old (fitted (phrase_text t) (length out.old)) }
{
    let name = month_name(t.month);
    let n = name.len() + rest_size(t);
    if out.len() < n {
        return Err(Reason::NoRoom);
    }
    put_bytes(out, 0, name);
    put_rest(out, name.len(), t);
    Ok(n)
}

// A moment as a phrase at the front of a lent buffer: 8 for no moment, 16 where second or millisecond isn't 0, 17 for a buffer too short.
#[tactic(auto, unfolding(crate::specs::Phrases::shown_of))]
pub fn write_phrase(t: Moment, out: &mut [u8]) -> Result<usize, Reason>
    ensures value { result ≡ wrote_of (shown_of t (length out.old)) }
    ensures buffer { out.new ≡ buffer_of out.old (shown_of t (length out.old)) }
{
    if !t.valid() {
        return Err(Reason::InvalidMoment);
    }
    if !is_whole(t) {
        return Err(Reason::NotWhole);
    }
    put_phrase(out, t)
}

// The tables of the second data block, tested entry by entry.
ghost use Rattle.std.specs.Prelude.{◌≡◌, ◌+◌, ◌*◌, ◌≤◌, ◌<◌, length};
ghost use Rattle.tzif.specs.File.{block_length, is_time, is_above, is_transition, is_type, each, are_tables, is_footer};

use super::file::Header;
use super::octets::{offset_at, time_at};

// The first seconds of the UTC years 0, 2 and 9999, plus 2^63.
const YEAR_0: u64 = 9223371974687556608;

const YEAR_2: u64 = 9223371974750715008;

const YEAR_9999: u64 = 9223372290225540608;

// True for a time outside UTC years 0 and 1 and up to 9998.
fn is_time(t: u64) -> bool
    ensures { result ≡ is_time t }
{
    t < YEAR_0 || (YEAR_2..YEAR_9999).contains(&t)
}

// True for the first time of the block, and for one above the time before it.
fn is_above(file: &[u8], b: usize, i: usize) -> bool
    requires { b + 8 * i + 8 ≤ length file.now }
    ensures { result ≡ is_above file.now b i }
{
    i == 0 || time_at(file, b, i - 1) < time_at(file, b, i)
}

// True for a transition that may stand there.
fn is_transition(file: &[u8], b: usize, h: Header, i: usize) -> bool
    requires { (b + block_length 8 h ≤ length file.now) × (i < h.timecnt) }
    ensures { result ≡ is_transition file.now b h i }
{
    is_time(time_at(file, b, i))
        && (file[b + 8 * h.timecnt + i] as usize) < h.typecnt
        && is_above(file, b, i)
}

// True where every transition may stand there.
fn are_transitions(file: &[u8], b: usize, h: Header) -> bool
    requires { b + block_length 8 h ≤ length file.now }
    ensures { result ≡ each (is_transition file.now b h) 0 h.timecnt }
{
    (0..h.timecnt).all(|i| is_transition(file, b, h, i))
}

// True for a type that may stand there.
fn is_type(file: &[u8], b: usize, h: Header, j: usize) -> bool
    requires { (b + block_length 8 h ≤ length file.now) × (j < h.typecnt) }
    ensures { result ≡ is_type file.now b h j }
{
    let types = b + 9 * h.timecnt;
    (1..183600).contains(&offset_at(file, types, j))
        && (file[types + 6 * j + 5] as usize) < h.charcnt
}

// True where every type may stand there.
fn are_types(file: &[u8], b: usize, h: Header) -> bool
    requires { b + block_length 8 h ≤ length file.now }
    ensures { result ≡ each (is_type file.now b h) 0 h.typecnt }
{
    (0..h.typecnt).all(|j| is_type(file, b, h, j))
}

// True where every transition and every type may stand there.
pub(crate) fn are_tables(file: &[u8], b: usize, h: Header) -> bool
    requires { b + block_length 8 h ≤ length file.now }
    ensures { result ≡ are_tables file.now b h }
{
    are_transitions(file, b, h) && are_types(file, b, h)
}

// True where a newline stands at a place, and another later.
pub(crate) fn is_footer(file: &[u8], at: usize) -> bool
    ensures { result ≡ is_footer file.now at }
{
    at < file.len() && file[at] == b'\n' && file[at + 1..].contains(&b'\n')
}

// A TZif file, checked whole.
ghost use Rattle.std.specs.Prelude.{◌≡◌, ◌+◌, ◌*◌, ◌≤◌, ◌<◌, length, IfSome, option_map};
ghost use Rattle.tzif.specs.File.{Narrow, header_at, is_header, block_length, zero_or, are_counts, is_block, last_at, places_at};
ghost use Rattle.tzif.specs.File.{block_of, checked_of};

use super::octets::{four, time_at};
use super::tables::{are_tables, is_footer};
use super::zone::Zone;

// A header's counts.
#[derive(Clone, Copy)]
pub struct Header {
    pub isutcnt: usize,
    pub isstdcnt: usize,
    pub leapcnt: usize,
    pub timecnt: usize,
    pub typecnt: usize,
    pub charcnt: usize,
}

// Where the second block's tables begin: transition times, their types' indexes and the types; how many transitions there are, and the last.
#[derive(Clone, Copy)]
pub struct Places {
    pub times: usize,
    pub indexes: usize,
    pub types: usize,
    pub count: usize,
    pub last: u64,
}

// The octets of a header, and the most of a file.
const HEADER: usize = 44;

const MOST: usize = 65536;

// "TZif" as a number.
const MAGIC: u32 = 1415211366;

// A header's six counts.
fn header_at(file: &[u8], at: usize) -> Header
    requires { at + 44 ≤ length file.now }
    ensures { (result ≡ header_at file.now at) × Narrow result }
{
    Header {
        isutcnt: four(file, at + 20) as usize,
        isstdcnt: four(file, at + 24) as usize,
        leapcnt: four(file, at + 28) as usize,
        timecnt: four(file, at + 32) as usize,
        typecnt: four(file, at + 36) as usize,
        charcnt: four(file, at + 40) as usize,
    }
}

// True for a header of version 2 or later.
fn is_header(file: &[u8], at: usize) -> bool
    ensures { result ≡ is_header file.now at }
{
    HEADER <= file.len()
        && at <= file.len() - HEADER
        && four(file, at) == MAGIC
        && b'2' <= file[at + 4]
}

// The octets of a block, whose times have four octets or eight.
fn block_length(times: usize, leaps: usize, h: Header) -> usize
    requires { (times ≤ 34359738368) × (leaps ≤ 51539607552) × Narrow h }
    ensures { result ≡ times + h.timecnt + 6 * h.typecnt + h.charcnt + leaps + h.isstdcnt + h.isutcnt }
{
    times + h.timecnt + 6 * h.typecnt + h.charcnt + leaps + h.isstdcnt + h.isutcnt
}

// True for 0 and for k.
fn zero_or(n: usize, k: usize) -> bool
    ensures { result ≡ zero_or n k }
{
    n == 0 || n == k
}

// True for counts that the second header may have.
fn are_counts(h: Header) -> bool
    ensures { result ≡ are_counts h }
{
    h.typecnt != 0
        && h.charcnt != 0
        && h.leapcnt == 0
        && zero_or(h.isutcnt, h.typecnt)
        && zero_or(h.isstdcnt, h.typecnt)
}

// True for a block that may begin at b behind that header, with its footer.
fn is_block(file: &[u8], b: usize, h: Header) -> bool
    requires { (b ≤ 65536) × Narrow h }
    ensures { result ≡ is_block file.now b h }
{
    let end = b + block_length(8 * h.timecnt, 12 * h.leapcnt, h);
    are_counts(h) && end <= file.len() && are_tables(file, b, h) && is_footer(file, end)
}

// The last of n transition times, 0 where there is none.
fn last_at(file: &[u8], b: usize, n: usize) -> u64
    requires { b + 8 * n ≤ length file.now }
    ensures { result ≡ last_at file.now b n }
{
    if n == 0 { 0 } else { time_at(file, b, n - 1) }
}

// The places of a block.
fn places_at(file: &[u8], b: usize, h: Header) -> Places
    requires { b + block_length 8 h ≤ length file.now }
    ensures { result ≡ places_at file.now b h }
{
    Places {
        times: b,
        indexes: b + 8 * h.timecnt,
        types: b + 9 * h.timecnt,
        count: h.timecnt,
        last: last_at(file, b, h.timecnt),
    }
}

// The block behind the second header, at a place.
fn check_block(file: &[u8], at: usize) -> Option<Places>
    requires { (at + 44 ≤ length file.now) × (length file.now ≤ 65536) }
    ensures { result ≡ block_of file.now at }
{
    let h = header_at(file, at);
    let b = at + HEADER;
    if is_block(file, b, h) {
        Some(places_at(file, b, h))
    } else {
        None
    }
}

// The zone of a file, `None` for one that is refused.
pub fn check(file: &[u8]) -> Option<Zone<'_>>
    ensures places { option_map (λ z. z.places) result ≡ checked_of file.now }
    ensures same { IfSome result (λ z. z.file ≡ file.entry) }
{
    if MOST < file.len() || !is_header(file, 0) {
        return None;
    }
    let h = header_at(file, 0);
    let at = HEADER + block_length(4 * h.timecnt, 8 * h.leapcnt, h);
    if !is_header(file, at) {
        return None;
    }
    let places = check_block(file, at)?;
    Some(Zone { file, places })
}

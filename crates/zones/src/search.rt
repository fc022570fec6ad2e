// The offset of an instant, and the instant of a civil second.
ghost use Rattle.std.specs.Prelude.{◌≡◌, ◌&&◌, ◌+◌, ◌≤◌, ◌<◌, leb, ltb};
ghost use Rattle.calendar.specs.Moments.{refused};
ghost use Rattle.tzif.specs.File.{last_at};
ghost use Rattle.tzif.specs.Read.{zone_read};
ghost use Rattle.zones.specs.Civil.{shift_at, civil_of, resolve, answer_of};
ghost use Rattle.zones.specs.Search.{passed_by, first_piece, resolve_at};

use refusals::Reason;
use tzif::zone::Zone;

// No offset is more: 26 hours less a second, with 90,000 added.
const WIDEST: u64 = 183599;

// How many transitions are at or before an instant: a search by halves.
fn passed(zone: Zone<'_>, s: u64) -> usize
    ensures { (result ≡ passed_by s (zone_read zone.entry).rows) × (result ≤ zone.entry.places.count) }
{
    let mut lo = 0;
    let mut hi = zone.places.count;
    while lo < hi {
        let mid = (lo + hi) / 2;
        if zone.transition_at(mid) <= s {
            lo = mid + 1;
        } else {
            hi = mid;
        }
    }
    lo
}

// The offset in force at an instant.
pub fn shift_at(zone: Zone<'_>, s: u64) -> u64
    ensures { (result ≡ shift_at (zone_read zone.entry).first (zone_read zone.entry).rows s) × (0 < result) × (result < 183600) }
{
    zone.offset_behind(passed(zone, s))
}

// The civil second of an instant before the last transition.
pub fn civil_of(zone: Zone<'_>, s: u64) -> u64
    requires { s < zone.places.last }
    ensures { result ≡ civil_of (zone_read zone.entry) s }
{
    s + shift_at(zone, s)
}

// The first piece that can hold a civil second.
fn first_piece(zone: Zone<'_>, c: u64) -> usize
    ensures { (result ≡ first_piece c (zone_read zone.entry).rows) × (result ≤ zone.entry.places.count) }
{
    if c < WIDEST {
        0
    } else {
        passed(zone, c - WIDEST)
    }
}

// Where the piece behind k transitions begins.
fn start_of(zone: Zone<'_>, k: usize) -> u64
    requires { k ≤ zone.places.count }
    ensures { (result ≡ last_at zone.entry.file.now zone.entry.places.times k) × (result < 9223372290225540608) }
{
    if k == 0 { 0 } else { zone.transition_at(k - 1) }
}

// True where a piece, from its start up to its end and at its offset, has a civil second.
fn holds(from: u64, end: u64, o: u64, c: u64) -> bool
    requires { (from < 9223372290225540608) × (end < 9223372290225540608) × (o < 183600) }
    ensures { result ≡ (leb (from + o) c && ltb c (end + o)) }
{
    (from + o..end + o).contains(&c)
}

// Why the piece behind the last transition has no instant of a civil second.
fn at_last(zone: Zone<'_>, c: u64) -> Reason
    ensures { refused result ≡ resolve_at zone.entry.file.now zone.entry.places zone.entry.places.count c }
{
    let count = zone.places.count;
    if c < start_of(zone, count) + zone.offset_behind(count) {
        Reason::NoInstant
    } else {
        Reason::PastLast
    }
}

// The instant of a civil second: of the pieces from the first that can hold it, up to the last that begins before it, the first that does.
pub fn resolve(zone: Zone<'_>, c: u64) -> Result<u64, Reason>
    ensures { answer_of result ≡ resolve (zone_read zone.entry) c }
{
    for k in first_piece(zone, c)..zone.places.count {
        let end = zone.transition_at(k);
        let o = zone.offset_behind(k);
        if holds(start_of(zone, k), end, o, c) {
            return Ok(c - o);
        }
        if c <= end {
            return Err(Reason::NoInstant);
        }
    }
    Err(at_last(zone, c))
}

// A stamp written as text.
ghost use Rattle.std.specs.Prelude.{◌≡◌, ◌+◌, ◌≤◌, length};
ghost use Rattle.std.proofs.lemmas.List.Edits.{sets};
ghost use Rattle.refusals.specs.Writings.{wrote_of, buffer_of};
ghost use Rattle.stamp.specs.Stamps.{is_zulu, sign_of, offset_text, fraction_text, stamp_text, is_offset, written_of};

use super::{Offset, Stamp};
use calendar::fixed::put_moment;
use digits::put::{put_digits, put_pair};
use refusals::Reason;

// True for an offset up to 23:59, east or west.
fn valid_offset(o: Offset) -> bool
    ensures { result ≡ is_offset o }
{
    o.west <= 1 && o.minutes < 1440
}

// True for the offset that "Z" says.
fn is_zulu(o: Offset) -> bool
    ensures { result ≡ is_zulu o }
{
    o.west == 0 && o.minutes == 0
}

// How many bytes an offset takes.
fn offset_size(o: Offset) -> usize
    ensures { result ≡ length (offset_text o) }
{
    if is_zulu(o) { 1 } else { 6 }
}

// How many bytes a fraction takes.
fn fraction_size(ms: u32) -> usize
    ensures { result ≡ length (fraction_text ms) }
{
    if ms == 0 { 0 } else { 4 }
}

// The sign of an offset.
fn sign_of(west: u32) -> u8
    ensures { result ≡ sign_of west }
{
    if west == 0 { b'+' } else { b'-' }
}

// A fraction, written behind a moment.
fn put_fraction(out: &mut [u8], ms: u32)
    requires { 19 + length (fraction_text ms) ≤ length out.old }
    ensures { out.new ≡ sets out.old 19 (fraction_text ms) }
{
    if ms > 0 {
        out[19] = b'.';
        put_digits(out, 20, 3, u64::from(ms));
    }
}

// An offset, written from a place on.
fn put_offset(out: &mut [u8], at: usize, o: Offset)
    requires { at + length (offset_text o) ≤ length out.old }
    ensures { out.new ≡ sets out.old at (offset_text o) }
{
    if is_zulu(o) {
        out[at] = b'Z';
    } else {
        put_pair(out, at, sign_of(o.west), o.minutes / 60);
        put_pair(out, at + 3, b':', o.minutes % 60);
    }
}

// A stamp's text, written at the front.
fn put_stamp(out: &mut [u8], stamp: Stamp)
    requires { length (stamp_text stamp) ≤ length out.old }
    ensures { out.new ≡ sets out.old 0 (stamp_text stamp) }
{
    let at = 19 + fraction_size(stamp.moment.millisecond);
    put_moment(out, b'T', stamp.moment);
    put_fraction(out, stamp.moment.millisecond);
    put_offset(out, at, stamp.offset);
}

// How many bytes a stamp's text takes.
fn size(stamp: Stamp) -> usize
    ensures { result ≡ length (stamp_text stamp) }
{
    19 + fraction_size(stamp.moment.millisecond) + offset_size(stamp.offset)
}

// A stamp as text at the front of a lent buffer: 8 for no moment, 14 for an offset out of range, 17 for a buffer too short.
#[tactic(auto, unfolding(crate::specs::Stamps::written_of))]
pub fn write_stamp(stamp: Stamp, out: &mut [u8]) -> Result<usize, Reason>
    ensures value { result ≡ wrote_of (written_of stamp (length out.old)) }
    ensures buffer { out.new ≡ buffer_of out.old (written_of stamp (length out.old)) }
{
    if !stamp.moment.valid() {
        return Err(Reason::InvalidMoment);
    }
    if !valid_offset(stamp.offset) {
        return Err(Reason::NoStamp);
    }
    let n = size(stamp);
    if out.len() < n {
        return Err(Reason::NoRoom);
    }
    put_stamp(out, stamp);
    Ok(n)
}

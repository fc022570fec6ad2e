// A moment in the fixed form YYYY-MM-DD?HH:MM:SS, with any byte as the mark between date and time.
ghost use Rattle.std.specs.Prelude.{◌≡◌, ◌+◌, ◌*◌, ◌≤◌, length};
ghost use Rattle.std.proofs.lemmas.List.Edits.{sets};
ghost use Rattle.digits.specs.Digits.{two_at};
ghost use Rattle.calendar.specs.Moments.{with_date, with_time};
ghost use Rattle.calendar.specs.Fixed.{date_text, time_text, moment_text, moment_in};

use super::moments::Moment;
use digits::digit::two;
use digits::put::{put_digits, put_pair};

// A date, written at the front.
fn put_date(out: &mut [u8], t: Moment)
    requires { 10 ≤ length out.old }
    ensures { out.new ≡ sets out.old 0 (date_text t) }
{
    put_digits(out, 0, 4, t.year as u64);
    put_pair(out, 4, b'-', t.month);
    put_pair(out, 7, b'-', t.day);
}

// A time of day, written behind a date and its mark.
fn put_time(out: &mut [u8], mark: u8, t: Moment)
    requires { 19 ≤ length out.old }
    ensures { out.new ≡ sets out.old 10 (time_text mark t) }
{
    put_pair(out, 10, mark, t.hour);
    put_pair(out, 13, b':', t.minute);
    put_pair(out, 16, b':', t.second);
}

// A moment, 19 bytes written at the front.
pub fn put_moment(out: &mut [u8], mark: u8, t: Moment)
    requires { 19 ≤ length out.old }
    ensures { out.new ≡ sets out.old 0 (moment_text mark t) }
{
    put_date(out, t);
    put_time(out, mark, t);
}

// The same time of day on the date at the front.
fn dated(s: &[u8], t: Moment) -> Moment
    requires { 10 ≤ length s.now }
    ensures { let s = s.now in result ≡ with_date (100 * two_at s 0 + two_at s 2) (two_at s 5) (two_at s 8) t }
{
    t.with_date(100 * two(s, 0) + two(s, 2), two(s, 5), two(s, 8))
}

// The same date at the time of day behind a date and its mark, with so many milliseconds.
fn timed(s: &[u8], ms: u32, t: Moment) -> Moment
    requires { 19 ≤ length s.now }
    ensures { let s = s.now in result ≡ with_time (two_at s 11) (two_at s 14) (two_at s 17) ms t }
{
    t.with_time(two(s, 11), two(s, 14), two(s, 17), ms)
}

// The moment at the front: its six numbers, whatever stands between them, and so many milliseconds.
pub fn moment_in(s: &[u8], ms: u32) -> Moment
    requires { 19 ≤ length s.now }
    ensures { result ≡ moment_in ms s.now }
{
    timed(s, ms, dated(s, Moment::first()))
}

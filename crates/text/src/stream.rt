// Input that comes in pieces: what its lines lead to, and what is kept of a line that goes on.
ghost use Rattle.std.specs.Prelude.{◌≡◌, ◌+◌, ◌*◌, ◌-◌, ◌≤◌, min, length, drop, take};
ghost use Rattle.std.proofs.lemmas.List.Edits.{sets};
ghost use Rattle.digits.specs.Stores.{Written, Added};
ghost use Rattle.text.specs.Lines.{rest_of};
ghost use Rattle.text.specs.Output.{line_text, after_line, passed_text, passed, Placed, kept, piece_of, Held, last_text};

use super::line::line_end;
use super::now::now_of;
use super::spelling::write_line;
use calendar::moments::Moment;

// What is known behind some lines, how many bytes they were, and how many bytes of output they gave.
#[derive(Clone, Copy)]
pub struct Passed {
    pub known: Option<Moment>,
    pub at: usize,
    pub count: usize,
}

// What is known behind the lines of a piece of the input, how many bytes are kept of the line that goes on, and how many bytes of output
// there are.
#[derive(Clone, Copy)]
pub struct Piece {
    pub known: Option<Moment>,
    pub held: usize,
    pub count: usize,
}

// What is known of now behind a line: nothing until the first line has ended, which says it.
fn after_line(k: Option<Moment>, line: &[u8]) -> Option<Moment>
    ensures { result ≡ after_line k line.now }
{
    match k {
        None => Some(now_of(line)),
        Some(t) => Some(t),
    }
}

// What a line adds to the output, behind what the lent buffer already has of it: nothing if it is the first. The new count.
fn write_next(k: Option<Moment>, line: &[u8], out: &mut [u8], count: usize) -> usize
    requires { count + 53 ≤ length out.old }
    ensures { Added (line_text k line.now) count result out.old out.new }
{
    match k {
        None => count,
        Some(t) => count + write_line(line, t, &mut out[count..]),
    }
}

// What the lines that a line feed ends add to the output, at the front of a lent buffer.
fn write_lines(k: Option<Moment>, s: &[u8], out: &mut [u8]) -> Passed
    requires { 53 * length s.now ≤ length out.old }
    ensures value { result ≡ passed k s.now }
    ensures bounds { Placed s.now result }
    ensures buffer { out.new ≡ sets out.old 0 (passed_text k s.now) }
{
    let mut known = k;
    let mut at: usize = 0;
    let mut count: usize = 0;
    while let Some(end) = line_end(s, at) {
        let line = &s[at..end];
        count = write_next(known, line, out, count);
        known = after_line(known, line);
        at = end + 1;
    }
    Passed { known, at, count }
}

// Keeps of the bytes from `at` up to `end`, a line that goes on, at most 257 at the front: more is refusal 1, whatever follows. The count.
fn keep(s: &mut [u8], at: usize, end: usize) -> usize
    requires { (at ≤ end) × (end ≤ length s.old) }
    ensures { Written (kept (take (end - at) (drop at s.old))) result s.old s.new }
{
    let n = (end - at).min(257);
    s.copy_within(at..at + n, 0);
    n
}

// The first `end` bytes of s: the answers to the lines that end there go to the front of `out`, and what is kept of the line that goes on
// to the front of s.
pub fn answer_piece(k: Option<Moment>, s: &mut [u8], end: usize, out: &mut [u8]) -> Piece
    requires { (end ≤ length s.old) × (53 * end ≤ length out.old) }
    ensures value { result ≡ piece_of k (take end s.old) }
    ensures bounds { Held end result }
    ensures input { s.new ≡ sets s.old 0 (kept (rest_of (take end s.old))) }
    ensures output { out.new ≡ sets out.old 0 (passed_text k (take end s.old)) }
{
    let p = write_lines(k, &s[..end], out);
    let held = keep(s, p.at, end);
    Piece {
        known: p.known,
        held,
        count: p.count,
    }
}

// What the bytes behind the last line feed, if any, add to the output when the input ends. The count.
pub fn write_last(k: Option<Moment>, rest: &[u8], out: &mut [u8]) -> usize
    requires { 53 ≤ length out.old }
    ensures { Written (last_text k rest.now) result out.old out.new }
{
    if rest.len() == 0 {
        return 0;
    }
    write_next(k, rest, out, 0)
}

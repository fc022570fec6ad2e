// Standard input answered on standard output, a piece at a time: memory use is constant.
#![tactic(auto)]

ghost use Rattle.std.specs.Prelude.{◌*◌, ◌≤◌, ◌<◌, ◌≡◌, length, take};
ghost use Rattle.std.proofs.lemmas.List.Edits.{sets};
ghost use Rattle.text.specs.Output.{last_text};
ghost use Rattle.console.specs.Turns.{ReadBehind, Turned, Stands};

use calendar::moments::Moment;
use std::io;
use std::io::{Read, Write};
use text::stream::{answer_piece, write_last};

// A piece of the input, behind which this is known and that many bytes are kept: more may come, or writing failed; or the input has ended.
#[derive(Clone, Copy)]
pub enum Turn {
    More { known: Option<Moment>, held: usize },
    Failed { known: Option<Moment>, held: usize },
    Ended,
}

// Where the loop stands: what is known, how many bytes of a line that goes on are kept, and whether the input has ended.
#[derive(Clone, Copy)]
pub struct Stand {
    pub known: Option<Moment>,
    pub held: usize,
    pub ended: bool,
}

// Reads once, behind the bytes that are kept; how many bytes came, 0 where the input has ended or reading failed.
fn read_behind(input: &mut impl Read, s: &mut [u8], held: usize) -> usize
    requires { held < length s.old }
    ensures { ReadBehind held result s.old s.new }
{
    input.read(&mut s[held..]).unwrap_or(0)
}

// Reads the next piece of the input, and answers the lines that end in it.
fn answer_next(
    input: &mut impl Read,
    output: &mut impl Write,
    known: Option<Moment>,
    held: usize,
    s: &mut [u8],
    out: &mut [u8],
) -> Turn
    requires { (held < length s.old) × (53 * length s.old ≤ length out.old) }
    ensures { Turned known (take held s.old) result s.new out.old out.new }
{
    let n = read_behind(input, s, held);
    if n == 0 {
        return Turn::Ended;
    }
    let p = answer_piece(known, s, held + n, out);
    let known = p.known;
    let held = p.held;
    if output.write_all(&out[..p.count]).is_ok() {
        return Turn::More { known, held };
    }
    Turn::Failed { known, held }
}

// Answers the bytes behind the last line feed, if any.
fn answer_last(output: &mut impl Write, known: Option<Moment>, rest: &[u8], out: &mut [u8])
    requires { 53 ≤ length out.old }
    ensures { out.new ≡ sets out.old 0 (last_text known rest.now) }
{
    let n = write_last(known, rest, out);
    let _ = output.write_all(&out[..n]);
}

// Answers piece after piece. A proved loop has to end, and nothing says that the input does: it counts its turns, up to a number that no
// run uses up.
fn answer_all(input: &mut impl Read, output: &mut impl Write, s: &mut [u8], out: &mut [u8]) -> Stand
    requires { (257 < length s.old) × (53 * length s.old ≤ length out.old) }
    ensures { Stands result s.new }
{
    let mut known = None;
    let mut held: usize = 0;
    for _ in 0..u64::MAX {
        match answer_next(input, output, known, held, s, out) {
            Turn::More { known: k, held: n } => {
                known = k;
                held = n;
            }
            Turn::Ended => {
                return Stand {
                    known,
                    held,
                    ended: true,
                };
            }
            Turn::Failed { known, held } => {
                return Stand {
                    known,
                    held,
                    ended: false,
                };
            }
        }
    }
    Stand {
        known,
        held,
        ended: false,
    }
}

// The program `fuzzy`: standard input answered line by line. A line gives at most 53 bytes, so the output of 1,024 bytes fits its buffer.
pub fn run(rt: &(impl Input + Print)) {
    let mut input = rt.reader();
    let mut output = io::writer(rt);
    let mut s = [0u8; 1024];
    let mut out = [0u8; 65536];
    let stand = answer_all(&mut input, &mut output, &mut s, &mut out);
    if stand.ended {
        answer_last(&mut output, stand.known, &s[..stand.held], &mut out);
    }
}

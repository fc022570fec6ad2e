// Lines `NOW|PHRASE` on standard input, in pieces, and for each the lexemes, what is read, the lexemes taken and the moment in one of the
// readings, as oracle/README.md has them: a line ends at the stage that refuses.
#![tactic(auto)]

ghost use Rattle.std.specs.Prelude.{◌≤◌, length, IfOk};

use lexer::reading::Reading;
use line::write_line;
use std::io;
use test_input::{each_line, read_full};

mod escape;
mod line;

// So many bytes of an unfinished line are kept: behind a now and its bar that is more than 256 bytes of a phrase, each in at most four,
// and so refusal 1 whatever follows.
const MOST: usize = 2048;

// Answers the lines that end in the first bytes of a piece, and keeps the rest at its front; how many bytes are kept.
fn write_piece(
    rt: &impl Print,
    reading: Reading,
    piece: &mut [u8],
    size: usize,
) -> io::Result<usize>
    requires { size ≤ length piece.old }
    ensures { IfOk result (λ n. n ≤ 2048) }
{
    let text = &piece[..size];
    let ended = text
        .iter()
        .rposition(|b| *b == b'\n')
        .map_or(0, |last| last + 1);
    each_line(&text[..ended], &mut |line| write_line(rt, reading, line))?;
    let kept = (size - ended).min(MOST);
    piece.copy_within(ended..ended + kept, 0);
    Ok(kept)
}

// The answers to all of standard input on standard output; bytes behind the last line feed, if any, are a line. The turns are counted only
// so that they end.
pub fn run(rt: &(impl Input + Print), reading: Reading) -> io::Result<()> {
    let mut input = rt.reader();
    let mut piece = [0u8; 4096];
    let mut held: usize = 0;
    for _ in 0..u64::MAX {
        let n = read_full(&mut input, &mut piece[held..])?;
        if n == 0 {
            break;
        }
        held = write_piece(rt, reading, &mut piece, held + n)?;
    }
    each_line(&piece[..held], &mut |line| write_line(rt, reading, line))
}

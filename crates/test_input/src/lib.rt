// Reads inputs and their lines, for the programs that the gate runs.
#![tactic(auto)]

ghost use Rattle.std.specs.Prelude.{◌≡◌, ◌+◌, ◌*◌, ◌≤◌, ◌<◌, length, IfOk, MatchOption};
ghost use Rattle.digits.specs.Digits.{two_at};

use digits::digit::two;
use std::io;
use std::io::Read;

// Reads until the piece is full or the input ends; how many bytes came.
pub fn read_full(input: &mut impl Read, piece: &mut [u8]) -> io::Result<usize>
    ensures { IfOk result (λ n. n ≤ length piece.new) }
{
    let mut at: usize = 0;
    while at < piece.len() {
        let n = input.read(&mut piece[at..])?;
        if n == 0 {
            break;
        }
        at += n;
    }
    Ok(at)
}

// Each line of a text, without its line feed; bytes behind the last line feed, if any, are a line.
pub fn each_line<F: FnMut(&[u8]) -> io::Result<()>>(text: &[u8], take: &mut F) -> io::Result<()>
    requires { F.IsAlwaysCallable take.old }
    ensures { F.IsAlwaysCallable take.new }
{
    for line in text.split_inclusive(|b| *b == b'\n') {
        take(line.strip_suffix(b"\n").unwrap_or(line))?;
    }
    Ok(())
}

// Each line of an input, which is read in so many pieces of 65,536 bytes at most. Each piece is of whole lines: what writes the input
// sees to that.
pub fn each_line_of<F: FnMut(&[u8]) -> io::Result<()>>(
    input: &mut impl Read,
    pieces: u64,
    mut take: F,
) -> io::Result<()>
    requires { F.IsAlwaysCallable take }
{
    let mut piece = [0u8; 65536];
    for _ in 0..pieces {
        let n = read_full(input, &mut piece)?;
        if n == 0 {
            break;
        }
        each_line(&piece[..n], &mut take)?;
    }
    Ok(())
}

// The number of the four digits at a place, where there are so many bytes.
pub fn four(text: &[u8], at: usize) -> Option<u32>
    ensures { MatchOption result (length text.now < at + 4) (λ n. n ≡ 100 * two_at text.now at + two_at text.now (at + 2)) }
{
    let digits = text.get(at..)?.first_chunk::<4>()?;
    Some(100 * two(digits, 0) + two(digits, 2))
}

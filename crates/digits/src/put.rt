// Bytes, digits and numbers put into a lent buffer.
ghost use Rattle.std.specs.Prelude.{◌≡◌, ◌+◌, ◌≤◌, length};
ghost use Rattle.std.proofs.lemmas.List.Edits.{sets};
ghost use Rattle.digits.specs.Digits.{digit_of, digits_of, marked, width_of, decimal_of};

use super::digit::width;

// Bytes, written from a place on.
pub fn put_bytes(out: &mut [u8], at: usize, s: &[u8])
    requires { at + length s.now ≤ length out.old }
    ensures { out.new ≡ sets out.old at s.now }
{
    out[at..at + s.len()].copy_from_slice(s);
}

// The last digit of a number.
fn digit(n: u64) -> u8
    ensures { result ≡ digit_of n }
{
    (48 + n % 10) as u8
}

// The last k digits of a number, written from a place on.
pub fn put_digits(out: &mut [u8], at: usize, k: usize, n: u64)
    requires { at + k ≤ length out.old }
    ensures { out.new ≡ sets out.old at (digits_of k n) }
{
    let mut rest = n;
    for i in (0..k).rev() {
        out[at + i] = digit(rest);
        rest /= 10;
    }
}

// A number with no zeros in front, written from a place on; the place behind it.
pub fn put_number(out: &mut [u8], at: usize, n: u64) -> usize
    requires { at + width_of n ≤ length out.old }
    ensures { (result ≡ at + width_of n) × (out.new ≡ sets out.old at (decimal_of n)) }
{
    let k = width(n);
    put_digits(out, at, k, n);
    at + k
}

// A mark and two digits, written from a place on.
pub fn put_pair(out: &mut [u8], at: usize, mark: u8, n: u32)
    requires { at + 3 ≤ length out.old }
    ensures { out.new ≡ sets out.old at (marked mark n) }
{
    out[at] = mark;
    put_digits(out, at + 1, 2, u64::from(n));
}

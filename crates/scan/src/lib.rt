// A byte looked for in a part of a text.
#![tactic(auto)]

ghost use Rattle.std.specs.Prelude.{◌≡◌, ◌+◌, ◌≤◌, length};
ghost use Rattle.scan.specs.Bytes.{index_of, slice};

// Where a byte first stands in the part from `start` up to `end`; `end` where it stands nowhere in it.
pub fn find(s: &[u8], start: usize, end: usize, b: u8) -> usize
    requires { (start ≤ end) × (end ≤ length s.now) }
    ensures value { result ≡ start + index_of b (slice start end s.now) }
    ensures bounds { (start ≤ result) × (result ≤ end) }
{
    match s[start..end].iter().position(|x| *x == b) {
        Some(i) => start + i,
        None => end,
    }
}

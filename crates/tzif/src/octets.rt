// Numbers in network octet order, and what is added to them in place of a sign.
ghost use Rattle.std.specs.Prelude.{◌≡◌, ◌+◌, ◌*◌, ◌≤◌, length};
ghost use Rattle.tzif.specs.File.{four_at, eight_at, turned, time_at, raised, offset_at};

// 2^63.
const HALF: u64 = 9223372036854775808;

// The number of four octets at a place.
pub(crate) fn four(file: &[u8], at: usize) -> u32
    requires { at + 4 ≤ length file.now }
    ensures { result ≡ four_at file.now at }
{
    u32::from_be_bytes([file[at], file[at + 1], file[at + 2], file[at + 3]])
}

// And of eight.
fn eight(file: &[u8], at: usize) -> u64
    requires { at + 8 ≤ length file.now }
    ensures { result ≡ eight_at file.now at }
{
    4294967296 * u64::from(four(file, at)) + u64::from(four(file, at + 4))
}

// A number of 64 bits with a sign, plus 2^63; and the way back.
pub fn turned(u: u64) -> u64
    ensures { result ≡ turned u }
{
    u.wrapping_add(HALF)
}

// Transition time i of the block that begins at b.
pub(crate) fn time_at(file: &[u8], b: usize, i: usize) -> u64
    requires { b + 8 * i + 8 ≤ length file.now }
    ensures { result ≡ time_at file.now b i }
{
    turned(eight(file, b + 8 * i))
}

// A number of 32 bits with a sign, plus 90,000; 0 for all from -90,000 down.
fn raised(u: u32) -> u64
    ensures { result ≡ raised u }
{
    let up = u64::from(u) + 90000;
    if u < 2147483648 {
        up
    } else {
        up.saturating_sub(4294967296)
    }
}

// The offset of type j in the table that begins at a place.
pub(crate) fn offset_at(file: &[u8], types: usize, j: usize) -> u64
    requires { types + 6 * j + 6 ≤ length file.now }
    ensures { result ≡ offset_at file.now types j }
{
    raised(four(file, types + 6 * j))
}

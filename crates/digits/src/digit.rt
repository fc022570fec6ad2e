// Digits, and how many a number has.
ghost use Rattle.std.specs.Prelude.{◌≡◌, ◌+◌, ◌*◌, ◌-◌, ◌≤◌, ◌<◌, min, length};
ghost use Rattle.digits.specs.Digits.{is_digit, two_at, width_of};

// The first number that no u32 holds.
pub const TOO_LARGE: u64 = 4294967296;

// True for 0 to 9.
pub fn is_digit(b: u8) -> bool
    ensures { result ≡ is_digit b }
{
    b.is_ascii_digit()
}

// A digit's number, 0 for any byte below the digits.
pub fn value(b: u8) -> u32
    ensures { (result ≡ b - 48) × (result ≤ 207) }
{
    u32::from(b.saturating_sub(b'0'))
}

// The number v with a digit more behind it; what is too large stays so.
pub fn with_digit(v: u64, b: u8) -> u64
    requires { v ≤ 4294967296 }
    ensures { result ≡ min (v * 10 + (b - 48)) 4294967296 }
{
    (v * 10 + u64::from(value(b))).min(TOO_LARGE)
}

// The number of the two digits at a place.
pub fn two(s: &[u8], at: usize) -> u32
    requires { at + 1 < length s.now }
    ensures { (result ≡ two_at s.now at) × (result ≤ 2277) }
{
    10 * value(s[at]) + value(s[at + 1])
}

// How many digits a number has.
pub fn width(n: u64) -> usize
    ensures { (result ≡ width_of n) × (result ≤ 20) }
{
    n.checked_ilog10().unwrap_or(0) as usize + 1
}

// The bytes that a line's text stands for: `\xHH` is one byte, every other byte stands for itself.
ghost use Rattle.std.specs.Prelude.{◌≤◌, ◌<◌, length, IfSome};

// A hexadecimal digit's number.
fn hex(digit: u8) -> Option<u8>
    ensures { IfSome result (λ n. n < 16) }
{
    match digit {
        b'0'..=b'9' => Some(digit - b'0'),
        b'a'..=b'f' => Some(digit - b'a' + 10),
        b'A'..=b'F' => Some(digit - b'A' + 10),
        _ => None,
    }
}

// The byte that the front of a text stands for, and the text behind it.
fn spelled(text: &[u8]) -> Option<(u8, &[u8])> {
    if let [b'\\', b'x', high, low, behind @ ..] = text {
        if let (Some(high), Some(low)) = (hex(*high), hex(*low)) {
            return Some(((high << 4) | low, behind));
        }
    }
    let (first, behind) = text.split_first()?;
    Some((*first, behind))
}

// The phrase that a text stands for, as far as there is room for it; how many bytes it has.
pub(crate) fn unescape(text: &[u8], phrase: &mut [u8]) -> usize
    ensures { result ≤ length phrase.new }
{
    let mut rest = text;
    for (n, b) in phrase.iter_mut().enumerate() {
        let Some((first, behind)) = spelled(rest) else {
            return n;
        };
        *b = first;
        rest = behind;
    }
    phrase.len()
}

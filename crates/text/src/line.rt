// The lines of a text.
ghost use Rattle.std.specs.Prelude.{◌≡◌};
ghost use Rattle.text.specs.Lines.{line_end};

use scan::find;

// Where the line that begins at a place ends, if a line feed ends it.
pub(crate) fn line_end(s: &[u8], at: usize) -> Option<usize>
    ensures { result ≡ line_end s.now at }
{
    if s.len() < at {
        return None;
    }
    let end = find(s, at, s.len(), b'\n');
    if end < s.len() { Some(end) } else { None }
}

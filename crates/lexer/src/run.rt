// Runs of bytes of one class.
ghost use Rattle.std.specs.Prelude.{◌≡◌};
ghost use Rattle.lexer.specs.Lex.{run_end};

use super::class::{Class, class_of};

// The end of the run of bytes of one class.
pub(crate) fn run_end(s: &[u8], at: usize, k: Class) -> usize
    ensures { result ≡ run_end k s.now at }
{
    for end in at..s.len() {
        if class_of(s[end]) != k {
            return end;
        }
    }
    s.len().max(at)
}

// What a byte is to the lexer.
ghost use Rattle.std.specs.Prelude.{◌≡◌};
ghost use Rattle.lexer.specs.Classes.{class_of, mark_of};

use super::lexeme::{COLON, COMMA, DASH, DOT, SLASH};

// The classes of bytes.
#[derive(Clone, Copy, PartialEq, Eq)]
pub(crate) enum Class {
    // It separates.
    Gap,

    // It is part of a word.
    Letter,

    // It is part of a number.
    Digit,

    // It is a lexeme by itself.
    Mark,

    // It has no meaning.
    Stray,
}

// The class of a byte.
#[tactic(auto, unfolding(crate::specs::Classes::class_of, crate::specs::Classes::mark_of))]
pub(crate) fn class_of(b: u8) -> Class
    ensures { result ≡ class_of b }
{
    match b {
        b' ' | b'\t' => Class::Gap,
        b'a'..=b'z' | b'A'..=b'Z' => Class::Letter,
        b'0'..=b'9' => Class::Digit,
        b',' | b':' | b'/' | b'-' | b'.' => Class::Mark,
        _ => Class::Stray,
    }
}

// The lexeme of a mark.
#[tactic(auto, unfolding(crate::specs::Classes::mark_of))]
pub(crate) fn mark(b: u8) -> Option<u64>
    ensures { result ≡ mark_of b }
{
    match b {
        b',' => Some(COMMA),
        b':' => Some(COLON),
        b'/' => Some(SLASH),
        b'-' => Some(DASH),
        b'.' => Some(DOT),
        _ => None,
    }
}

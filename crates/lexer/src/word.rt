// A word as two numbers: its first 8 bytes and its next 4, the first byte the greatest.
ghost use Rattle.std.specs.Prelude.{◌≡◌, ◌≤◌, [], map};
ghost use Rattle.lexer.specs.Words.{lower_of, folded};
ghost use Rattle.lexer.specs.Classes.{letter_of};
ghost use Rattle.lexer.specs.Table.{fixed, bytes_from, weight_of, Room, compared_of};
ghost use Rattle.lexer.specs.Lex.{letter_at, block_of, key_of};

use super::class::Class;
use super::run::run_end;

// Letters as one number, filled up, and where they end.
#[derive(Clone, Copy)]
struct Block {
    number: u64,
    end: usize,
}

// A word as two numbers, and where it ends.
#[derive(Clone, Copy)]
pub struct Key {
    pub head: u64,
    pub tail: u64,
    pub end: usize,
}

// The tail of a word that has no more than 8 letters.
const NO_LETTERS: u64 = 539893806;

// A letter's small one.
#[tactic(auto, unfolding(crate::specs::Classes::letter_of))]
pub(crate) fn letter(b: u8) -> Option<u8>
    ensures { result ≡ letter_of b }
{
    if b.is_ascii_lowercase() {
        Some(b)
    } else if b.is_ascii_uppercase() {
        Some(b + 32)
    } else {
        None
    }
}

// The small letter at a place, if one stands there.
fn letter_at(s: &[u8], at: usize) -> Option<u8>
    ensures { result ≡ letter_at s.now at }
{
    letter(*s.get(at)?)
}

// 256 to the number of places, 0 where that is no u64.
fn weight(places: usize) -> u64
    ensures { result ≡ weight_of places }
{
    match places {
        0 => 1,
        1 => 256,
        2 => 65536,
        3 => 16777216,
        4 => 4294967296,
        5 => 1099511627776,
        6 => 281474976710656,
        7 => 72057594037927936,
        _ => 0,
    }
}

// What places say that a word leaves free.
fn fillers(places: usize) -> u64
    requires { places ≤ 8 }
    ensures { result ≡ bytes_from 0 (fixed places []) }
{
    match places {
        0 => 0,
        1 => 46,
        2 => 8238,
        3 => 3022894,
        4 => 539893806,
        5 => 198108389422,
        6 => 35382480478254,
        7 => 12983231409168430,
        _ => 2318826240622862382,
    }
}

// The number v with so many places behind it that a word leaves free.
#[tactic(auto, using(crate::proofs::Rooms::filled_is, crate::proofs::Rooms::fillers_below))]
fn filled(v: u64, places: usize) -> u64
    requires { (places ≤ 8) × Room v places }
    ensures { result ≡ bytes_from v (fixed places []) }
{
    v * weight(places) + fillers(places)
}

// The letters from a place on, n of them at most, filled up to n bytes.
fn block_at(s: &[u8], at: usize, n: usize) -> Block
    requires { n ≤ 8 }
    ensures { result ≡ block_of n s.now at }
{
    let mut number: u64 = 0;
    for i in 0..n {
        let Some(small) = letter_at(s, at + i) else {
            return Block {
                number: filled(number, n - i),
                end: at + i,
            };
        };
        number = number * 256 + small as u64;
    }
    Block {
        number,
        end: at + n,
    }
}

// The word that begins at a.
pub(crate) fn key_at(s: &[u8], a: usize) -> Key
    ensures { result ≡ key_of s.now a }
{
    let h = block_at(s, a, 8);
    if h.end - a < 8 {
        return Key {
            head: h.number,
            tail: NO_LETTERS,
            end: h.end,
        };
    }
    let t = block_at(s, h.end, 4);
    Key {
        head: h.number,
        tail: t.number,
        end: run_end(s, t.end, Class::Letter),
    }
}

// A byte of a word as it is compared: a letter's small one; what is not above the fillers counts as the byte above them, what is above the letters
// as the byte above those, and any other byte as itself.
fn compared(b: u8) -> u8
    ensures { result ≡ compared_of (lower_of b) }
{
    b.to_ascii_lowercase().clamp(b'/', b'{')
}

// The first 12 bytes of a word as a row has them.
pub(crate) fn row_of(word: &[u8]) -> [u8; 12]
    ensures { result ≡ fixed 12 (map compared_of (folded word.now)) }
{
    let mut row = *b" . . . . . .";
    for i in 0..word.len().min(12) {
        row[i] = compared(word[i]);
    }
    row
}

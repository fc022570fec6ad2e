// What a word means, and how many rows it is compared with: a search by halves in the table of a reading's words.
ghost use Rattle.std.specs.Prelude.{◌≡◌, List, ℕ, ◌≤◌, ◌<◌};
ghost use Rattle.lexer.specs.Keywords.{words_in, count_in};
ghost use Rattle.lexer.specs.Words.{folded};
ghost use Rattle.lexer.specs.Visits.{looked_up};
ghost use Rattle.lexer.specs.Table.{sorted, spelling_at, by_key, Stands};

use super::reading::Reading;
use super::table::bytes_at;
use super::word::row_of;
use super::words::Words;
use std::cmp::Ordering;

// What a lookup says: the lexeme if the word is a keyword, and how many rows were compared.
#[derive(Clone, Copy)]
pub struct Looked {
    pub code: Option<u64>,
    pub count: u32,
}

// The order of row i's word and the word that two numbers stand for. (With the heads compared by `cmp` a search takes half as many instructions more.)
fn compare(words: Words, i: usize, head: u64, tail: u64) -> Ordering
    requires { i < count_in words.reading }
    ensures { result ≡ by_key (spelling_at (sorted (words_in words.reading)) i) head tail }
{
    let x = words.head_at(i);
    if x < head {
        return Ordering::Less;
    }
    if head < x {
        return Ordering::Greater;
    }
    words.tail_at(i).cmp(&tail)
}

// What the word means that two numbers stand for: a search by halves, the lower of two middles first, each row counted that is compared.
pub(crate) fn find(words: Words, head: u64, tail: u64) -> Looked
    ensures { (w : List ℕ) → Stands head tail w → result ≡ looked_up (words_in words.reading) w }
{
    let mut count: u32 = 0;
    let mut lo: usize = 0;
    let mut hi = words.count();
    while lo < hi {
        let mid = (lo + hi - 1) / 2;
        let order = compare(words, mid, head, tail);
        count += 1;
        match order {
            Ordering::Less => lo = mid + 1,
            Ordering::Equal => {
                return Looked {
                    code: Some(words.lexeme_at(mid)),
                    count,
                };
            }
            Ordering::Greater => hi = mid,
        }
    }
    Looked { code: None, count }
}

// What a word of any bytes means in one of the readings, and how many rows it is compared with.
pub fn look_up(reading: Reading, word: &[u8]) -> Looked
    ensures value { result ≡ looked_up (words_in reading) (folded word.now) }
    ensures most { result.count ≤ 8 }
{
    let row = row_of(word);
    let head = bytes_at(&row, 0, 8);
    let tail = bytes_at(&row, 8, 4);
    find(Words::of(reading), head, tail)
}

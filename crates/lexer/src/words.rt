// The words of a reading, as the table has them.
ghost use Rattle.std.specs.Prelude.{◌≡◌, ◌<◌};
ghost use Rattle.lexer.specs.Keywords.{words_in, count_in};
ghost use Rattle.lexer.specs.Table.{sorted, cells, spelling_at, lexeme_at, head_of, tail_of};

use super::reading::Reading;
use super::table::{bytes_at, first_rows, second_rows};

// A reading, and the rows of its words in byte order, lent as they lie in the program.
#[derive(Clone, Copy)]
pub(crate) struct Words {
    pub(crate) reading: Reading,
    pub(crate) rows: &'static [u8],
    ghost all_rows: { rows.now ≡ cells (sorted (words_in reading)) },
}

impl Words {
    // The words of a reading.
    pub(crate) fn of(reading: Reading) -> Words
        ensures { result.reading ≡ reading }
    {
        let rows = match reading {
            Reading::First => first_rows(),
            Reading::Second => second_rows(),
        };
        Words { reading, rows }
    }

    // How many rows there are.
    pub(crate) fn count(self) -> usize
        ensures { result ≡ count_in self.reading }
    {
        match self.reading {
            Reading::First => 133,
            Reading::Second => 136,
        }
    }

    // The first 8 bytes of row i's word.
    pub(crate) fn head_at(self, i: usize) -> u64
        requires { i < count_in self.reading }
        ensures { result ≡ head_of (spelling_at (sorted (words_in self.reading)) i) }
    {
        bytes_at(self.rows, i * 16, 8)
    }

    // Its next 4 bytes.
    pub(crate) fn tail_at(self, i: usize) -> u64
        requires { i < count_in self.reading }
        ensures { result ≡ tail_of (spelling_at (sorted (words_in self.reading)) i) }
    {
        bytes_at(self.rows, i * 16 + 8, 4)
    }

    // What it means.
    pub(crate) fn lexeme_at(self, i: usize) -> u64
        requires { i < count_in self.reading }
        ensures { result ≡ lexeme_at (sorted (words_in self.reading)) i }
    {
        self.rows[i * 16 + 15] as u64
    }
}

// The two readings of a phrase.
ghost use Rattle.std.specs.Prelude.{◌≡◌};
ghost use Rattle.lexer.specs.Readings.{reading_numbered};

use refusals::Reason;

// Which of the two senses of a phrase the caller asks for.
#[derive(Clone, Copy)]
pub enum Reading {
    First,
    Second,
}

impl TryFrom<u32> for Reading {
    type Error = Reason;

    ghost try_from_gives = { λ number reading. reading ≡ reading_numbered number };

    // The reading of a number that a caller gives: 1 for the first, 2 for the second.
    fn try_from(number: u32) -> Result<Reading, Reason> {
        match number {
            1 => Ok(Reading::First),
            2 => Ok(Reading::Second),
            _ => Err(Reason::NoReading),
        }
    }
}

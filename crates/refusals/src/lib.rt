// Why a phrase, a moment or a file is refused, with the numbers of include/fuzzy.h: the paper's 1 to 13 in the order in which they are tested, then the requests'.
#![tactic(auto)]

ghost use Rattle.std.specs.Prelude.{◌≡◌, ◌≤◌};
ghost use Rattle.refusals.specs.Table.{number_of};
ghost use Rattle.refusals.specs.Answers.{refusal_at};

// Why something is refused.
#[derive(Clone, Copy, PartialEq, Eq)]
pub enum Reason {
    // The phrase is longer than 256 bytes.
    TooLong = 1,

    // A word is no keyword, or a byte has no meaning.
    Unknown,

    // A digit run is above 4,294,967,295.
    LargeDigits,

    // There is a 65th lexeme.
    TooMany,

    // DateTime::parse reads nothing.
    Nothing,

    // A sum or product in a number passes 4,294,967,295.
    LargeSum,

    // Lexemes are left after the reading.
    LeftOver,

    // A given moment, the now, the start, the asked or the written one, is no date and time in years 1 to 9999.
    InvalidMoment,

    // The reading or step list has no sense.
    NoSense,

    // There is no such month or day.
    NoDate,

    // There is no such time of day.
    NoTime,

    // The moment is outside years 1 to 9999.
    Outside,

    // A year step leads from 29 February into a common year.
    NoLeapDay,

    // The text is no stamp: another form, or an impossible date, time or offset.
    NoStamp,

    // The reading that is asked for is neither 1 nor 2; tested before all the others.
    NoReading,

    // The second or the millisecond isn't 0, which a phrase doesn't show.
    NotWhole,

    // The buffer is too short.
    NoRoom,

    // The rule is outside the RFC 5545 rules that are taken.
    NoRule,

    // The start doesn't match the rule, or lies past its UNTIL.
    NoStart,

    // No occurrence in years 1 to 9999 is at or after the moment.
    NoNext,

    // The file is no zone: no TZif file of version 2 or later, or one that passes a bound.
    NoZone,

    // The moment is at or past the zone's last transition.
    PastLast,

    // The civil time doesn't occur in the zone.
    NoInstant,

    // Every slot of the board holds a reminder.
    FullBoard,

    // The board's slot holds nothing.
    EmptySlot,

    // No entry of the board has a moment, so that nothing is due.
    NothingDue,
}

impl Reason {
    // Its number.
    pub fn number(self) -> u32
        ensures value { result ≡ number_of self }
        ensures bounds { (1 ≤ result) × (result ≤ 26) }
    {
        self as u32
    }
}

// A refusal: why, its place in the phrase and the end of its part.
#[derive(Clone, Copy)]
pub struct Refusal {
    pub reason: Reason,
    pub place: usize,
    pub end: usize,
}

impl From<Reason> for Refusal {
    ghost from_gives = { λ reason refusal. refusal ≡ refusal_at reason 0 0 };

    // Refusals 8 and up have place 0 and an empty part.
    fn from(reason: Reason) -> Refusal {
        Refusal {
            reason,
            place: 0,
            end: 0,
        }
    }
}

// Civil seconds and moments.
ghost use Rattle.std.specs.Prelude.{◌≡◌, true, ◌<◌};
ghost use Rattle.calendar.specs.Moments.{IsMoment};
ghost use Rattle.zones.specs.Civil.{in_years, moment_of_second, second_of_moment};

use calendar::moments::Moment;

// The first civil second of year 1, and the first of year 10,000.
const FIRST: u64 = 9223371974719269008;

const LIMIT: u64 = 9223372290257166608;

// True for a civil second in years 1 to 9999.
pub fn in_years(c: u64) -> bool
    ensures { result ≡ in_years c }
{
    (FIRST..LIMIT).contains(&c)
}

// The moment of a civil second, with a millisecond.
pub fn moment_of_second(c: u64, millisecond: u32) -> Moment
    requires { in_years c ≡ true }
    ensures { result ≡ moment_of_second c millisecond }
{
    Moment::at_second(c - FIRST, millisecond)
}

// The civil second of a moment.
pub fn second_of_moment(t: Moment) -> u64
    requires { IsMoment t }
    ensures { (result ≡ second_of_moment t) × (result < 9223372290257166608) }
{
    FIRST + t.second_number()
}

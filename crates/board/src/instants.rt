// Instants in milliseconds, and the moments of them.
ghost use Rattle.std.specs.Prelude.{◌≡◌, ◌≤◌, ◌<◌};
ghost use Rattle.calendar.specs.Moments.{IsMoment, Valid, reached_of, instant_of};
ghost use Rattle.board.specs.Boards.{instants, due_of, at_instant};

use calendar::moments::Moment;
use refusals::Reason;

// The milliseconds of the years 1 to 9999.
const INSTANTS: u64 = 315537897600000;

// The milliseconds from the first moment on.
fn instant(t: Moment) -> u64
    requires { IsMoment t }
    ensures { (result ≡ instant_of t) × (result < instants) }
{
    let minutes = 1440 * (t.day_number() as u64) + 60 * (t.hour as u64) + (t.minute as u64);
    1000 * (60 * minutes + (t.second as u64)) + (t.millisecond as u64)
}

// When a reminder is due; behind all instants where it refuses.
pub(crate) fn due(reached: Result<Moment, Reason>) -> u64
    requires { Valid (reached_of reached) }
    ensures { (result ≡ due_of (reached_of reached)) × (result ≤ instants) }
{
    match reached {
        Ok(t) => instant(t),
        Err(_) => INSTANTS,
    }
}

// The moment of an instant.
pub(crate) fn at_instant(i: u64) -> Result<Moment, Reason>
    requires { i < 72057594037927936 }
    ensures { reached_of result ≡ at_instant i }
{
    let hour = (i / 3600000 % 24) as u32;
    let minute = (i / 60000 % 60) as u32;
    let second = (i / 1000 % 60) as u32;
    let millisecond = (i % 1000) as u32;
    Moment::FIRST
        .with_time(hour, minute, second, millisecond)
        .on_day((i / 86400000) as u32)
}

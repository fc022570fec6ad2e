// Instants of a zone: their civil moments, the instant of a civil moment, and fixed lengths between instants.
ghost use Rattle.std.specs.Prelude.{◌≡◌, true, false, ◌<◌, IfOk};
ghost use Rattle.calendar.specs.Moments.{IsMoment};
ghost use Rattle.tzif.specs.Read.{zone_read};
ghost use Rattle.zones.specs.Civil.{answer_of};
ghost use Rattle.zones.specs.Instants.{with_millisecond, arrive, fixed_from, fixed_step, clock_of, settled, settled_of, Shown, Kept};

use super::civil::{in_years, moment_of_second, second_of_moment};
use super::search::{civil_of, resolve};
use calendar::moments::Moment;
use refusals::Reason;
use tzif::zone::Zone;

// An instant: its second since 1970, 2^63 added, and the millisecond.
#[derive(Clone, Copy)]
pub struct Instant {
    pub second: u64,
    pub millisecond: u32,
}

// A second before the last transition that a fixed length leads to.
fn arrive(zone: Zone<'_>, s: u64) -> Result<u64, Reason>
    requires { s < zone.places.last }
    ensures { answer_of result ≡ arrive (zone_read zone.entry) s }
{
    if in_years(civil_of(zone, s)) {
        Ok(s)
    } else {
        Err(Reason::Outside)
    }
}

// So many minutes on from a second. More seconds than a number has lead past every last transition.
fn go_on(zone: Zone<'_>, k: u64, s: u64) -> Result<u64, Reason>
    requires { s < zone.places.last }
    ensures { answer_of result ≡ fixed_from (zone_read zone.entry) false k s }
{
    let far = k.saturating_mul(60);
    if zone.places.last - s <= far {
        return Err(Reason::PastLast);
    }
    arrive(zone, s + far)
}

// So many minutes back from a second. More seconds than a number has lead ahead of the first instant.
fn go_back(zone: Zone<'_>, k: u64, s: u64) -> Result<u64, Reason>
    requires { s < zone.places.last }
    ensures { answer_of result ≡ fixed_from (zone_read zone.entry) true k s }
{
    let far = k.saturating_mul(60);
    if s < far {
        return Err(Reason::Outside);
    }
    arrive(zone, s - far)
}

// A second that was reached, with a millisecond.
fn with_millisecond(at: Result<u64, Reason>, millisecond: u32) -> Result<Instant, Reason>
    ensures { answer_of result ≡ with_millisecond millisecond (answer_of at) }
{
    at.map(|second| Instant {
        second,
        millisecond,
    })
}

// So many minutes from an instant, back or on.
pub fn fixed_step(zone: Zone<'_>, back: bool, k: u64, x: Instant) -> Result<Instant, Reason>
    requires { Shown (zone_read zone) x }
    ensures result_value { answer_of result ≡ fixed_step (zone_read zone.entry) back k x }
    ensures kept { Kept (zone_read zone.entry) (answer_of result) }
{
    let at = if back {
        go_back(zone, k, x.second)
    } else {
        go_on(zone, k, x.second)
    };
    with_millisecond(at, x.millisecond)
}

// The civil moment that the clocks show at an instant.
pub fn clock_of(zone: Zone<'_>, x: Instant) -> Moment
    requires { Shown (zone_read zone) x }
    ensures { (result ≡ clock_of (zone_read zone.entry) x) × IsMoment result }
{
    moment_of_second(civil_of(zone, x.second), x.millisecond)
}

// The instant of a civil moment that was reached. A refusal ahead of it stays, whatever type tells it.
pub fn settle<R>(zone: Zone<'_>, at: Result<Moment, R>) -> Result<Result<Instant, Reason>, R>
    requires { IfOk at IsMoment }
    ensures result_value { settled_of result ≡ settled (zone_read zone.entry) at }
    ensures kept { IfOk result (λ x. Kept (zone_read zone.entry) (answer_of x)) }
{
    let t = at?;
    Ok(with_millisecond(resolve(zone, second_of_moment(t)), t.millisecond))
}

// Durations as steps.
ghost use Rattle.std.specs.Prelude.{◌≡◌, ◌≤◌, ◌<◌, length};
ghost use Rattle.std.proofs.Math.Seq.{slice};
ghost use Rattle.calendar.specs.Moments.{IsMoment, reached_of, Valid};
ghost use Rattle.evaluation.specs.Steps.{unit_step, part_step, duration_step};
ghost use Rattle.phrase.specs.Chains.{row_duration};

use calendar::moments::Moment;
use dates::duration::{Part, Parts, Slot};
use dates::units::Unit;
use refusals::Reason;

// So many units, back or on: days, weeks, hours and minutes are fixed lengths.
pub(crate) fn unit_step(back: bool, k: u32, unit: Unit, t: Moment) -> Result<Moment, Reason>
    requires { IsMoment t }
    ensures result_value { reached_of result ≡ unit_step back k unit t }
    ensures valid { Valid (reached_of result) }
{
    let n = k as u64;
    match unit {
        Unit::Day => t.minutes_step(back, 1440 * n),
        Unit::Week => t.minutes_step(back, 10080 * n),
        Unit::Hour => t.minutes_step(back, 60 * n),
        Unit::Minute => t.minutes_step(back, n),
        Unit::Month => t.months_step(back, n),
        Unit::Year => t.years_step(back, n),
    }
}

// One part of a duration, back or on; an article is one.
fn part_step(back: bool, part: Part, t: Moment) -> Result<Moment, Reason>
    requires { IsMoment t }
    ensures result_value { reached_of result ≡ part_step back part t }
    ensures valid { Valid (reached_of result) }
{
    match part {
        Part::Article(u) => unit_step(back, 1, u, t),
        Part::Specific(u, k) => unit_step(back, k, u, t),
    }
}

// The parts from one place up to another.
pub(crate) fn row(parts: &Parts, from: u8, to: u8) -> &[Slot]
    requires { (from < to) × (to ≤ 21) }
    ensures value { result.now ≡ slice from to parts.now.items }
    ensures some { 0 < length result.now }
{
    &parts.items[from as usize..to as usize]
}

// A row of parts, first to last: each one's own result is tested.
pub(crate) fn duration_step(back: bool, row: &[Slot], begin: Moment) -> Result<Moment, Reason>
    requires { (0 < length row.now) × IsMoment begin }
    ensures result_value { reached_of result ≡ duration_step back (row_duration row.now) begin }
    ensures valid { Valid (reached_of result) }
{
    let mut t = begin;
    for slot in row {
        t = part_step(back, slot.part, t)?;
    }
    Ok(t)
}

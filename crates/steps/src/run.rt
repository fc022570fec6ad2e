// What a step does at a now, and what a list of steps asks of it.
ghost use Rattle.std.specs.Prelude.{◌≡◌, ◌≤◌};
ghost use Rattle.calendar.specs.Moments.{IsMoment, reached_of, Valid};
ghost use Rattle.numbers.specs.Slices.{one_if};
ghost use Rattle.steps.specs.Running.{start_at, move_by, act_of, is_start, is_time_step, times_from, times_due};

use super::plan::{Move, Start, Step};
use calendar::moments::Moment;
use evaluation::date::date_at;
use evaluation::time::time_at;
use evaluation::weekday::{back_to, forward_to, in_week};
use refusals::Reason;

// A start from t. Here and below every start and every move is named, so that a new one has to be placed.
fn start_at(start: Start, t: Moment) -> Result<Moment, Reason>
    requires { IsMoment t }
    ensures { (reached_of result ≡ start_at start t) × Valid (reached_of result) }
{
    match start {
        Start::Now => Ok(t),
        Start::Senseless => Err(Reason::NoSense),
        Start::OnDate(date) => date_at(date, t),
        Start::InWeek(s, w) => in_week(s, w % 7, t),
        Start::FromToday(w) => forward_to(w % 7, t),
    }
}

// A move from t.
fn move_by(way: Move, t: Moment) -> Result<Moment, Reason>
    requires { IsMoment t }
    ensures { (reached_of result ≡ move_by way t) × Valid (reached_of result) }
{
    match way {
        Move::Minutes { back, count } => t.minutes_step(back, count),
        Move::Months { back, count } => t.months_step(back, u64::from(count)),
        Move::Years { back, count } => t.years_step(back, u64::from(count)),
        Move::BackTo(w) => back_to(w % 7, t),
        Move::ForwardTo(w) => forward_to(w % 7, t),
    }
}

// One step from t, at a now.
pub fn act(step: Step, now: Moment, t: Moment) -> Result<Moment, Reason>
    requires { IsMoment now × IsMoment t }
    ensures result_value { reached_of result ≡ act_of step now t }
    ensures valid { Valid (reached_of result) }
{
    match step {
        Step::From(start) => start_at(start, t),
        Step::By(way) => move_by(way, t),
        Step::AtTime(time) => time_at(time, now, t),
    }
}

// Is a step a start?
pub fn is_start(step: Step) -> bool
    ensures { result ≡ is_start step }
{
    matches!(step, Step::From(_))
}

// 1 for a time step, and else 0.
pub fn one_if_time(step: Step) -> u32
    ensures { (result ≡ one_if (is_time_step step)) × (result ≤ 1) }
{
    u32::from(matches!(step, Step::AtTime(_)))
}

// The time steps that a start needs.
fn times_from(start: Start) -> u32
    ensures { result ≡ times_from start }
{
    match start {
        Start::Now | Start::Senseless => 0,
        Start::OnDate(_) | Start::InWeek(_, _) | Start::FromToday(_) => 1,
    }
}

// The time steps that a first step needs.
pub fn times_due(step: Step) -> u32
    ensures { result ≡ times_due step }
{
    match step {
        Step::From(start) => times_from(start),
        Step::By(_) | Step::AtTime(_) => 0,
    }
}

// A list of at most 24 steps, and the joining of neighbours.
ghost use Rattle.std.specs.Prelude.{◌≡◌, ◌+◌, ◌<◌, ◌≤◌, ◌^◌};
ghost use Rattle.steps.specs.Joining.{is_refusal, refuses, length_of, fixed_of, minutes_in, minutes_of, same_way, join_of};
ghost use Rattle.steps.specs.Plans.{blank_plan, begun, pushed, replaced, add_to, last_of};

use dates::date::Date;
use dates::time::Time;
use dates::units::RelativeSpecifier;

// Where a list starts; all but the first two are date rules.
#[derive(Clone, Copy)]
pub enum Start {
    Now,
    Senseless,
    OnDate(Date),
    InWeek(RelativeSpecifier, u32),
    FromToday(u32),
}

// A way on from a moment.
#[derive(Clone, Copy)]
pub enum Move {
    Minutes { back: bool, count: u64 },
    Months { back: bool, count: u32 },
    Years { back: bool, count: u32 },
    BackTo(u32),
    ForwardTo(u32),
}

// One step: from a start, by a move, or to a time of day.
#[derive(Clone, Copy)]
pub enum Step {
    From(Start),
    By(Move),
    AtTime(Time),
}

// The first n slots are the list.
#[derive(Clone, Copy)]
pub struct Plan {
    pub n: usize,
    pub slots: [Step; 24],
}

// A fixed length: so many minutes, back or on.
#[derive(Clone, Copy)]
pub struct Length {
    pub back: bool,
    pub count: u64,
}

// What becomes of the last step and one behind it: the last one stays alone, both stay, or they are one fixed length.
#[derive(Clone, Copy)]
pub enum Join {
    Alone,
    Apart,
    One(Length),
}

// No step.
pub fn none() -> Plan
    ensures { result ≡ blank_plan }
{
    Plan {
        n: 0,
        slots: [Step::From(Start::Now); 24],
    }
}

// A list of a start alone.
pub fn single(start: Start) -> Plan
    ensures { result ≡ begun start }
{
    push(none(), Step::From(start))
}

// One step more.
fn push(mut p: Plan, step: Step) -> Plan
    requires { p.n < 24 }
    ensures { result ≡ pushed p step }
{
    p.slots[p.n] = step;
    p.n += 1;
    p
}

// Another step in the place of the last one.
fn replace_last(mut p: Plan, step: Step) -> Plan
    requires { (0 < p.n) × (p.n ≤ 24) }
    ensures { result ≡ replaced p step }
{
    p.slots[p.n - 1] = step;
    p
}

// Is a start a refusal? Here and below every start and every move is named, so that a new one has to be placed.
fn is_refusal(start: Start) -> bool
    ensures { result ≡ is_refusal start }
{
    match start {
        Start::Senseless => true,
        Start::Now | Start::OnDate(_) | Start::InWeek(_, _) | Start::FromToday(_) => false,
    }
}

// Is a step a refusal?
fn refuses(step: Step) -> bool
    ensures { result ≡ refuses step }
{
    match step {
        Step::From(start) => is_refusal(start),
        Step::By(_) | Step::AtTime(_) => false,
    }
}

// A move as a fixed length, if it is one.
fn length_of(way: Move) -> Option<Length>
    ensures { result ≡ length_of way }
{
    match way {
        Move::Minutes { back, count } => Some(Length { back, count }),
        Move::Months { .. } | Move::Years { .. } | Move::BackTo(_) | Move::ForwardTo(_) => None,
    }
}

// A step as a fixed length, if it is one.
fn fixed_of(step: Step) -> Option<Length>
    ensures { result ≡ fixed_of step }
{
    match step {
        Step::By(way) => length_of(way),
        Step::From(_) | Step::AtTime(_) => None,
    }
}

// A fixed length and what stands behind it.
fn same_way(length: Length, next: Option<Length>) -> Join
    requires { length.count + minutes_in next < 2 ^ 64 }
    ensures { result ≡ same_way length next }
{
    match next {
        Some(more) if length.back == more.back => Join::One(Length {
            count: length.count + more.count,
            ..length
        }),
        _ => Join::Apart,
    }
}

// The last step and one behind it.
fn join_of(last: Step, step: Step) -> Join
    requires { minutes_of last + minutes_of step < 2 ^ 64 }
    ensures { result ≡ join_of last step }
{
    if refuses(last) {
        return Join::Alone;
    }
    match fixed_of(last) {
        Some(length) => same_way(length, fixed_of(step)),
        None => Join::Apart,
    }
}

// One step more behind a list: a refusal stays alone, and neighbouring fixed lengths of one direction become one.
#[tactic(auto, unfolding(crate::specs::Plans::add_to))]
pub fn add(p: Plan, step: Step) -> Plan
    requires { (0 < p.n) × (p.n < 24) × (minutes_of (last_of p) + minutes_of step < 2 ^ 64) }
    ensures { result ≡ add_to p step }
{
    let last = p.slots[p.n - 1];
    match join_of(last, step) {
        Join::Alone => p,
        Join::Apart => push(p, step),
        Join::One(Length { back, count }) => replace_last(
            p,
            Step::By(Move::Minutes { back, count }),
        ),
    }
}

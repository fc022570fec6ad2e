// A ready phrase run from its bytes, without a list of its steps in between.
ghost use Rattle.std.specs.Prelude.{◌≡◌, ◌&&◌, ◌+◌, ◌-◌, ◌*◌, ◌/◌, ◌≤◌, length};
ghost use Rattle.calendar.specs.Moments.{IsMoment, reached_of, Valid};
ghost use Rattle.steps.specs.Running.{is_start, times_due, walk_of, is_list, run_of};
ghost use Rattle.records.specs.Words.{step_from};
ghost use Rattle.records.specs.Records.{ready_size, words_at, steps_at, decode_of, may_follow};

use super::record::{READY_SIZE, SIZE, is_record, words_at};
use super::words::step_from;
use calendar::moments::Moment;
use refusals::Reason;
use steps::plan::Step;
use steps::run::{act, is_start, one_if_time, times_due};

// Behind the first record: are they all records, none of a start, and those of time steps as many as are due?
#[tactic(auto, using(crate::proofs::Runs::following))]
fn is_followed(b: &[u8], due: u32) -> bool
    requires { length b.now ≤ ready_size }
    ensures { result ≡ may_follow due (length b.now / 16 - 1) b.now 16 }
{
    let mut found = 0;
    for i in 1..b.len() / SIZE {
        let w = words_at(b, SIZE * i);
        if !is_record(w) {
            return false;
        }
        let step = step_from(w);
        if is_start(step) {
            return false;
        }
        found += one_if_time(step);
    }
    found == due
}

// Is the first step a start that the others may follow?
fn is_formed(b: &[u8], start: Step) -> bool
    requires { length b.now ≤ ready_size }
    ensures { result ≡ (is_start start && may_follow (times_due start) (length b.now / 16 - 1) b.now 16) }
{
    is_start(start) && is_followed(b, times_due(start))
}

// Does a slice stand for a list that may be run? Every record is looked at once.
#[tactic(auto, using(crate::proofs::Runs::listing))]
pub fn is_list(b: &[u8]) -> bool
    ensures { result ≡ is_list (decode_of b.now) }
{
    if b.is_empty() || b.len() > READY_SIZE || b.len() % SIZE != 0 {
        return false;
    }
    let w = words_at(b, 0);
    is_record(w) && is_formed(b, step_from(w))
}

// The step of a record.
pub fn step_at(b: &[u8], i: usize) -> Step
    requires { 16 * i + 16 ≤ length b.now }
    ensures { result ≡ step_from (words_at b.now (16 * i)) }
{
    step_from(words_at(b, SIZE * i))
}

// The steps of the records from `first` up to `end` in order, from a moment and at a now, up to the first refusal.
#[tactic(auto, using(crate::proofs::Runs::walking))]
pub fn walk(b: &[u8], first: usize, end: usize, at: Moment, from: Moment) -> Result<Moment, Reason>
    requires { (16 * end ≤ length b.now) × (IsMoment at × IsMoment from) }
    ensures result_value { reached_of result ≡ walk_of (steps_at (end - first) b.now (16 * first)) at from }
    ensures valid { Valid (reached_of result) }
{
    let mut t = from;
    for i in first..end {
        t = act(step_at(b, i), at, t)?;
    }
    Ok(t)
}

// A ready phrase at a now: 8, then 9 for a slice that stands for no list, then the steps in order.
#[tactic(auto, using(crate::proofs::Runs::running))]
pub fn run_ready(b: &[u8], at: Moment) -> Result<Moment, Reason>
    ensures result_value { reached_of result ≡ run_of (decode_of b.now) at }
    ensures valid { Valid (reached_of result) }
{
    if !at.valid() {
        return Err(Reason::InvalidMoment);
    }
    if !is_list(b) {
        return Err(Reason::NoSense);
    }
    walk(b, 0, b.len() / SIZE, at, at)
}

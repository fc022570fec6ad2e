// A chain at a now: date, time of day, then the durations around them, innermost first.
ghost use Rattle.std.specs.Prelude.{◌≡◌};
ghost use Rattle.calendar.specs.Moments.{IsMoment, reached_of, Valid};
ghost use Rattle.phrase.specs.Chains.{base_of, tree_of};
ghost use Rattle.phrase.specs.Formed.{Formed};
ghost use Rattle.evaluation.specs.Evaluate.{evaluate};

use super::expr::expr_at;
use super::step::{duration_step, row};
use super::time::time_at;
use calendar::moments::Moment;
use phrase::chain::{Base, Chain};
use refusals::Reason;

// What the durations stand around: its date, and then its time of day.
fn base_at(r: &Chain, now: Moment) -> Result<Moment, Reason>
    requires { IsMoment now × Formed r.now }
    ensures result_value { reached_of result ≡ evaluate (base_of r.now) now }
    ensures valid { Valid (reached_of result) }
{
    match r.base {
        Base::Now => Ok(now),
        Base::DateTime(expr) | Base::TimeDate(expr) => {
            time_at(r.time, now, expr_at(expr, &r.parts, r.own, now)?)
        }
    }
}

// DateTime::to_chrono: each link's duration, from the last link to the first.
pub fn evaluate(r: Chain, now: Moment) -> Result<Moment, Reason>
    requires { IsMoment now × Formed r }
    ensures result_value { reached_of result ≡ evaluate (tree_of r) now }
    ensures valid { Valid (reached_of result) }
{
    let mut t = base_at(&r, now)?;
    for i in (0..r.m).rev() {
        let link = r.links[i as usize];
        t = duration_step(link.back, row(&r.parts, link.from, link.to), t)?;
    }
    Ok(t)
}

// The occurrences of a rule, written in order into a lent buffer, a row of seven numbers each.
ghost use Rattle.std.specs.Prelude.{◌≡◌, ◌+◌, ◌*◌, ◌/◌, ◌≤◌, min, length, take};
ghost use Rattle.std.proofs.lemmas.List.Edits.{sets};
ghost use Rattle.refusals.specs.Writings.{wrote_of};
ghost use Rattle.calendar.specs.Moments.{IsMoment, moment_numbers, seven};
ghost use Rattle.rules.specs.Rule.{IsRule};
ghost use Rattle.repeats.specs.Courses.{IsCourse, days_in};
ghost use Rattle.repeats.specs.Listing.{rows, list_of, rows_after};

use super::courses::{Course, begin};
use super::days::first_from;
use calendar::moments::{MOMENT_NUMBERS, Moment};
use refusals::Reason;
use rules::Rule;

// The seven numbers of a moment, written from a place on.
fn put_row(moments: &mut [u32], at: usize, t: Moment)
    requires { at + moment_numbers ≤ length moments.old }
    ensures { moments.new ≡ sets moments.old at (seven t) }
{
    moments[at..at + MOMENT_NUMBERS].copy_from_slice(&<[u32; MOMENT_NUMBERS]>::from(t));
}

// A course's days at the front of a lent buffer, a row each at a moment's time of day, as many as it has room for; their count.
fn put_rows(c: Course, t: Moment, moments: &mut [u32]) -> usize
    requires { IsCourse c }
    ensures value { result ≡ length (take (length moments.old / moment_numbers) (days_in c)) }
    ensures buffer { let before = moments.old in moments.new ≡ sets before 0 (rows t (take (length before / moment_numbers) (days_in c))) }
{
    let most = (moments.len() / MOMENT_NUMBERS).min(c.count as usize);
    let mut from = c.start;
    for n in 0..most {
        if c.limit <= from {
            return n;
        }
        let day = first_from(c, from);
        if c.limit <= day {
            return n;
        }
        put_row(moments, MOMENT_NUMBERS * n, t.at_day(day));
        from = day + 1;
    }
    most
}

// The occurrences of a rule from its start on, in order, up to the buffer's room: 19 for a start that doesn't match or lies past UNTIL.
#[tactic(auto, using(crate::proofs::Begins::listing), unfolding(crate::specs::Occurrences::days_of))]
pub fn list(rule: Rule, start: Moment, moments: &mut [u32]) -> Result<usize, Reason>
    requires { IsRule rule × IsMoment start }
    ensures value { result ≡ wrote_of (list_of rule start (length moments.old)) }
    ensures buffer { let before = moments.old in moments.new ≡ rows_after start before (list_of rule start (length before)) }
{
    let c = begin(rule, start)?;
    Ok(put_rows(c, start, moments))
}

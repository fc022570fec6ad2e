// Weekdays by the day number, Monday 0. Days are counted from a week before the first one, a Monday too, so that no rule falls below 0.
ghost use Rattle.std.specs.Prelude.{◌≡◌, ◌<◌};
ghost use Rattle.calendar.specs.Moments.{IsMoment, reached_of, Valid};
ghost use Rattle.evaluation.specs.Weekdays.{days_back, in_week, forward_to, back_to};

use calendar::moments::Moment;
use dates::units::RelativeSpecifier;
use refusals::Reason;

// The days before the first one that are counted too.
const WEEK: u32 = 7;

// The same time of day on a day that is counted from a week before the first one.
fn on_counted(n: u32, t: Moment) -> Result<Moment, Reason>
    requires { IsMoment t }
    ensures result_value { reached_of result ≡ days_back n 7 t }
    ensures valid { Valid (reached_of result) }
{
    t.on_day(n.checked_sub(WEEK).ok_or(Reason::Outside)?)
}

// That weekday in the following, preceding or same week.
pub fn in_week(specifier: RelativeSpecifier, w: u32, t: Moment) -> Result<Moment, Reason>
    requires { IsMoment t × (w < 7) }
    ensures result_value { reached_of result ≡ in_week specifier w t }
    ensures valid { Valid (reached_of result) }
{
    let today = t.day_number() + WEEK;
    let monday = today - today % WEEK;
    match specifier {
        // this week's Monday, a week, and on to the weekday
        RelativeSpecifier::Next => on_counted(monday + WEEK + w, t),
        // this week's Monday, a week back, and on to the weekday
        RelativeSpecifier::Last => on_counted(monday - WEEK + w, t),
        // this week's Monday, and on to the weekday
        RelativeSpecifier::This => on_counted(monday + w, t),
    }
}

// On to the first such weekday, that day included; a bare weekday is its first date from today by the same rule.
pub fn forward_to(w: u32, t: Moment) -> Result<Moment, Reason>
    requires { IsMoment t × (w < 7) }
    ensures result_value { reached_of result ≡ forward_to w t }
    ensures valid { Valid (reached_of result) }
{
    let first = t.day_number() + WEEK;
    // as many days on as the weekday lies behind the first day's, 0 to 6
    on_counted(first + (WEEK + w - first % WEEK) % WEEK, t)
}

// Back to the weekday, 0 to 6 days.
pub fn back_to(w: u32, t: Moment) -> Result<Moment, Reason>
    requires { IsMoment t × (w < 7) }
    ensures result_value { reached_of result ≡ back_to w t }
    ensures valid { Valid (reached_of result) }
{
    let last = t.day_number() + WEEK;
    // as many days back as the weekday lies before the last day's, 0 to 6
    on_counted(last - (WEEK + last % WEEK - w) % WEEK, t)
}

// The first line of the input as a now.
ghost use Rattle.std.specs.Prelude.{◌≡◌};
ghost use Rattle.text.specs.Nows.{no_now, now_of};

use calendar::fixed::moment_in;
use calendar::moments::Moment;
use digits::form::of_form;

// A moment that is none of the calendar.
fn no_now() -> Moment
    ensures { result ≡ no_now }
{
    Moment::first().with_date(0, 0, 0).with_time(0, 0, 0, 0)
}

// A line `YYYY-MM-DD HH:MM:SS` as a now; one in another form is an invalid now.
pub fn now_of(line: &[u8]) -> Moment
    ensures { result ≡ now_of line.now }
{
    if of_form(b"0000-00-00 00:00:00", line) {
        return moment_in(line, 0);
    }
    no_now()
}

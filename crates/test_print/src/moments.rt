// Moments.
use calendar::moments::Moment;
use std::fmt;

// A moment, `2026-02-11 09:30:15`.
#[derive(Clone, Copy)]
pub struct MomentText(pub Moment);

impl fmt::Display for MomentText {
    fn fmt<W: fmt::Write>(&self, f: &mut fmt::Formatter<W>) -> fmt::Result {
        let t = self.0;
        write!(f, "{:04}-{:02}-{:02} ", t.year, t.month, t.day)?;
        write!(f, "{:02}:{:02}:{:02}", t.hour, t.minute, t.second)
    }
}

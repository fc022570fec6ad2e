// Answers.
use super::moments::MomentText;
use calendar::moments::Moment;
use refusals::Refusal;
use std::fmt;

// A moment, or `refused 2 at 3 to 8`.
#[derive(Clone, Copy)]
pub struct AnswerText(pub Result<Moment, Refusal>);

impl fmt::Display for AnswerText {
    fn fmt<W: fmt::Write>(&self, f: &mut fmt::Formatter<W>) -> fmt::Result {
        match self.0 {
            Ok(t) => write!(f, "{}", MomentText(t)),
            Err(r) => write!(
                f,
                "refused {} at {} to {}",
                r.reason.number(),
                r.place,
                r.end
            ),
        }
    }
}

// A phrase at a now.
#![tactic(auto)]

ghost use Rattle.std.specs.Prelude.{◌≡◌};
ghost use Rattle.lexer.specs.Keywords.{words_in};
ghost use Rattle.refusals.specs.Answers.{answer_from};
ghost use Rattle.answer.specs.Answer.{answer_of};

use calendar::moments::Moment;
use evaluation::chain::evaluate;
use lexer::reading::Reading;
use phrase::read::read;
use refusals::{Reason, Refusal};

// A phrase at a now, in one of the readings: refusals 1 to 7, then 8, then 9 to 13; or the moment.
#[tactic(auto, using(crate::proofs::ReadAnswers::answering))]
pub fn answer(reading: Reading, phrase: &[u8], at: Moment) -> Result<Moment, Refusal>
    ensures { answer_from result ≡ answer_of reading (words_in reading) phrase.now at }
{
    let read = read(reading, phrase)?;
    if !at.valid() {
        return Err(Reason::InvalidMoment.into());
    }
    Ok(evaluate(read.chain, at)?)
}

// Phrases made ready without a now.
#![tactic(auto)]

ghost use Rattle.std.specs.Prelude.{◌≡◌};
ghost use Rattle.lexer.specs.Keywords.{words_in};
ghost use Rattle.ready.specs.Ready.{ready_of, ready_answer};

use lexer::reading::Reading;
use make::plan_of;
use phrase::read::read;
use refusals::Refusal;
use steps::plan::Plan;

pub mod make;

// A phrase made ready in one of the readings: its steps, or what reading refuses, 1 to 7.
#[tactic(auto, using(crate::proofs::ReadReady::making))]
pub fn make_ready(reading: Reading, phrase: &[u8]) -> Result<Plan, Refusal>
    ensures { result ≡ ready_answer (ready_of reading (words_in reading) phrase.now) }
{
    let read = read(reading, phrase)?;
    Ok(plan_of(read.chain))
}

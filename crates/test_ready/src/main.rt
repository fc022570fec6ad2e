// Reads lines `YYYY-MM-DD HH:MM:SS|PHRASE` on standard input and writes for each the answer to the phrase at that now, the answer of the
// records that it is made ready as, run at that now, and how many they are; and the offending part of a phrase that reading refuses.
#![tactic(auto)]

use answer::answer;
use calendar::fixed::moment_in;
use calendar::moments::Moment;
use lexer::reading::Reading;
use phrase::read::offending;
use ready::make_ready;
use records::record::encode;
use records::run::run_ready;
use refusals::Refusal;
use std::io;
use steps::plan::Plan;
use test_input::each_line_of;
use test_print::answers::AnswerText;

// The records of a plan, run at a now, and how many there are: a phrase that was made ready has at most 24.
fn write_run(rt: &impl Print, plan: Plan, t: Moment) -> io::Result<()> {
    let n = plan.n;
    if n > 24 {
        return Ok(());
    }
    let mut ready = [0u8; 384];
    encode(plan, &mut ready);
    let reached = run_ready(&ready[..16 * n], t).map_err(Refusal::from);
    print!(rt; "{}|{n}", AnswerText(reached))
}

// The phrase made ready, run at a now, and the count of its steps; or the refusal, no step and the offending part.
fn write_ready(rt: &impl Print, phrase: &[u8], t: Moment) -> io::Result<()> {
    match make_ready(Reading::First, phrase) {
        Ok(plan) => write_run(rt, plan, t),
        Err(refusal) => {
            print!(rt; "{}|0|", AnswerText(Err(refusal)))?;
            rt.write_all(offending(Reading::First, phrase))
        }
    }
}

// A now, a bar and a phrase.
fn write_line(rt: &impl Print, line: &[u8]) -> io::Result<()> {
    let Some(phrase) = line.get(20..) else {
        return Ok(());
    };
    let t = moment_in(line, 0);
    print!(rt; "{}|", AnswerText(answer(Reading::First, phrase, t)))?;
    write_ready(rt, phrase, t)?;
    println!(rt)
}

// Standard input is one piece: data/expected.py, which writes it, sees to that.
fn main(rt: HostRuntime) -> io::Result<()> {
    each_line_of(&mut rt.reader(), 1, |line| write_line(&rt, line))
}

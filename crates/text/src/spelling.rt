// An answer as text.
ghost use Rattle.std.specs.Prelude.{◌≡◌, ◌+◌, ◌≤◌, length};
ghost use Rattle.std.proofs.lemmas.List.Edits.{sets};
ghost use Rattle.digits.specs.Digits.{width_of};
ghost use Rattle.digits.specs.Stores.{Written};
ghost use Rattle.refusals.specs.Answers.{answer_from};
ghost use Rattle.text.specs.Output.{answer_line};
ghost use Rattle.text.specs.Texts.{refusal_text, text_of, fitting};

use answer::answer;
use calendar::fixed::put_moment;
use calendar::moments::Moment;
use digits::digit::width;
use digits::put::{put_bytes, put_number};
use lexer::reading::Reading;
use refusals::Refusal;

// A refusal's number and place, written at the front.
fn put_refusal(out: &mut [u8], number: u64, place: u64)
    requires { 12 + width_of number + width_of place ≤ length out.old }
    ensures { out.new ≡ sets out.old 0 (refusal_text number place) }
{
    put_bytes(out, 0, b"refused ");
    let at = put_number(out, 8, number);
    put_bytes(out, at, b" at ");
    put_number(out, at + 4, place);
}

// How many bytes an answer takes.
fn size(a: Result<Moment, Refusal>) -> usize
    ensures { result ≡ length (text_of (answer_from a)) }
{
    match a {
        Ok(_) => 19,
        Err(r) => 12 + width(r.reason.number() as u64) + width(r.place as u64),
    }
}

// An answer, `2026-02-20 09:30:15` or `refused 7 at 1`, at the front of a lent buffer; the count, 0 where there is no room.
fn write_answer(a: Result<Moment, Refusal>, out: &mut [u8]) -> usize
    ensures { Written (fitting (length out.old) (text_of (answer_from a))) result out.old out.new }
{
    let n = size(a);
    if out.len() < n {
        return 0;
    }
    match a {
        Ok(t) => put_moment(out, b' ', t),
        Err(r) => put_refusal(out, r.reason.number() as u64, r.place as u64),
    }
    n
}

// The answer to a phrase at a now in the first reading, on a line of its own, at the front of a lent buffer; the count.
pub(crate) fn write_line(phrase: &[u8], t: Moment, out: &mut [u8]) -> usize
    requires { 53 ≤ length out.old }
    ensures { Written (answer_line t phrase.now) result out.old out.new }
{
    let a = answer(Reading::First, phrase, t);
    let n = write_answer(a, out);
    out[n] = b'\n';
    n + 1
}

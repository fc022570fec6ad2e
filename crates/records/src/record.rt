// The records of a list of steps.
ghost use Rattle.std.specs.Prelude.{◌≡◌, ◌+◌, ◌*◌, ◌≤◌, length};
ghost use Rattle.std.proofs.lemmas.List.Edits.{sets};
ghost use Rattle.steps.specs.Plans.{steps_in};
ghost use Rattle.records.specs.Records.{bytes_of_words, encode_of, word_at, words_at, is_record};
ghost use Rattle.records.specs.Kinds.{forms_of, has_first, has_second, has_third, may_have};

use super::endian::put;
use super::words::{Words, words_of};
use steps::plan::Plan;

// The bytes of one record.
pub(crate) const SIZE: usize = 16;

// The room that any ready phrase needs: 24 records.
pub const READY_SIZE: usize = 24 * SIZE;

// A record at a place.
fn put_words(b: &mut [u8], at: usize, w: Words)
    requires { at + 16 ≤ length b.old }
    ensures { b.new ≡ sets b.old at (bytes_of_words w) }
{
    put(b, at, u64::from(w.kind) + 256 * u64::from(w.form));
    put(b, at + 4, u64::from(w.a));
    put(b, at + 8, u64::from(w.b));
    put(b, at + 12, u64::from(w.c));
}

// The records of a list, one behind the other from the start; what stands behind them stays.
pub fn encode(p: Plan, b: &mut [u8])
    requires { (p.n ≤ 24) × (16 * p.n ≤ length b.old) }
    ensures { b.new ≡ sets b.old 0 (encode_of (steps_in p)) }
{
    for (i, step) in p.slots[..p.n].iter().enumerate() {
        put_words(b, SIZE * i, words_of(*step));
    }
}

// The number of four bytes at a place.
fn word_at(b: &[u8], at: usize) -> u32
    requires { at + 4 ≤ length b.now }
    ensures { result ≡ word_at b.now at }
{
    u32::from_le_bytes([b[at], b[at + 1], b[at + 2], b[at + 3]])
}

// The numbers of the record at a place.
#[tactic(auto, unfolding(crate::specs::Records::words_at))]
pub(crate) fn words_at(b: &[u8], at: usize) -> Words
    requires { at + 16 ≤ length b.now }
    ensures { result ≡ words_at b.now at }
{
    let first = word_at(b, at);
    Words {
        kind: first % 256,
        form: first / 256,
        a: word_at(b, at + 4),
        b: word_at(b, at + 8),
        c: word_at(b, at + 12),
    }
}

// How many forms a kind has.
fn forms(kind: u32) -> u32
    ensures { result ≡ forms_of kind }
{
    match kind {
        1 => 1,
        2 => 1,
        3 => 10,
        4 => 3,
        5 => 1,
        6 => 2,
        7 => 2,
        8 => 2,
        9 => 1,
        10 => 4,
        11 => 1,
        _ => 0,
    }
}

// Has a record of a kind and form a first number?
fn has_first(kind: u32, form: u32) -> bool
    ensures { result ≡ has_first kind form }
{
    match kind {
        1 => false,
        2 => false,
        3 => form < 6,
        10 => form != 0,
        _ => true,
    }
}

// Has it a second?
fn has_second(kind: u32, form: u32) -> bool
    ensures { result ≡ has_second kind form }
{
    match kind {
        3 => form < 6,
        6 => true,
        10 => form != 0,
        _ => false,
    }
}

// Has it a third?
fn has_third(kind: u32, form: u32) -> bool
    ensures { result ≡ has_third kind form }
{
    kind == 3 && form < 4
}

// May a record of its kind and form have these numbers? The last that is not 0 says.
fn may_have(w: Words) -> bool
    ensures { result ≡ may_have w.kind w.form w.a w.b w.c }
{
    if w.c != 0 {
        has_third(w.kind, w.form)
    } else if w.b != 0 {
        has_second(w.kind, w.form)
    } else {
        w.a == 0 || has_first(w.kind, w.form)
    }
}

// Does a step encode to these numbers?
pub(crate) fn is_record(w: Words) -> bool
    ensures { result ≡ is_record w }
{
    w.form < forms(w.kind) && may_have(w)
}

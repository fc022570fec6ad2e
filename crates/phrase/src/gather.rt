// The reading of a phrase's lexemes: the parts of each link's duration, then the base's own, in one row.
ghost use Rattle.std.specs.Prelude.{◌≡◌, ◌+◌, ◌*◌, ◌≤◌, length};
ghost use Rattle.phrase.specs.DateTimes.{date_time_of};
ghost use Rattle.phrase.specs.Outlines.{has_own, is_back, with_own, kept, gathered};

use super::chain::{Base, Chain, Link};
use super::date_time::read_outline;
use dates::duration::{Part, Parts, Slot, with_parts};
use dates::units::Unit;
use expressions::expr::has_duration;
use lexer::lexeme::{AFTER, FROM};
use lexer::reading::Reading;
use numbers::Overflow;
use numbers::slices::{is_at, rest};

// A chain, and the lexemes taken; that of now where nothing is kept.
#[derive(Clone, Copy)]
pub struct Gathered {
    pub chain: Chain,
    pub taken: usize,
}

// Whether a duration belongs to the base.
fn has_own(b: Base) -> bool
    ensures { result ≡ has_own b }
{
    match b {
        Base::Now => false,
        Base::DateTime(e) | Base::TimeDate(e) => has_duration(e),
    }
}

// Whether a duration that ends at t goes back: neither "after" nor "from" stands there.
fn is_back(l: &[u64], t: usize) -> bool
    ensures { result ≡ is_back l.now t }
{
    !is_at(l, t, AFTER) && !is_at(l, t, FROM)
}

// The parts of the base's own duration at the front of l behind those of the links.
fn with_own(reading: Reading, base: Base, l: &[u64], parts: Parts) -> Parts
    requires { 3 * parts.n + length l.now ≤ 64 }
    ensures { result ≡ with_own reading base l.now parts }
{
    if has_own(base) {
        with_parts(reading, l, parts).parts
    } else {
        parts
    }
}

// The chain of what is read of l, kept only where at least n lexemes are taken.
pub fn gather(reading: Reading, l: &[u64], n: usize) -> Result<Option<Gathered>, Overflow>
    requires { length l.now ≤ 64 }
    ensures { result ≡ gathered (kept n (date_time_of reading l.now)) }
{
    let Some(o) = read_outline(reading, l, n)? else {
        return Ok(None);
    };
    let mut parts = Parts {
        n: 0,
        items: [Slot {
            part: Part::Article(Unit::Day),
        }; 21],
    };
    let mut links = [Link {
        back: false,
        from: 0,
        to: 0,
    }; 21];
    let mut at: usize = 0;
    for i in 0..o.m {
        let left = rest(l, at);
        let row = with_parts(reading, left, parts);
        links[i] = Link {
            back: is_back(left, row.end),
            from: parts.n,
            to: row.parts.n,
        };
        parts = row.parts;
        at += row.end + 1;
    }
    let chain = Chain {
        base: o.base,
        time: o.time,
        parts: with_own(reading, o.base, rest(l, at + o.own), parts),
        own: parts.n,
        m: o.m as u8,
        links,
    };
    Ok(Some(Gathered {
        chain,
        taken: o.taken,
    }))
}

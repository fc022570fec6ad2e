// The chain: a chain of durations, outermost first, over one base.
use dates::duration::Parts;
use dates::time::Time;
use expressions::expr::Expr;

// What the durations stand around: `DateTime::Now`, `DateTime::DateTime`, `DateTime::TimeDate`.
#[derive(Clone, Copy)]
pub enum Base {
    Now,
    DateTime(Expr),
    TimeDate(Expr),
}

// `DateTime::After`, `DateTime::Before`: a direction, and the parts from one place up to another.
#[derive(Clone, Copy)]
pub struct Link {
    pub back: bool,
    pub from: u8,
    pub to: u8,
}

// The base has its own parts from `own` on; the m links are in front of it, outermost first.
#[derive(Clone, Copy)]
pub struct Chain {
    pub base: Base,
    pub time: Time,
    pub parts: Parts,
    pub own: u8,
    pub m: u8,
    pub links: [Link; 21],
}

// The readers of units, durations, dates and times: `Article` to `Duration`, `Date` and `Time` of ast.rs.
#![tactic(auto)]

pub mod date;
pub mod duration;
pub mod time;
pub mod units;

// A reading at a now: `to_chrono`, `after`, `before`, `after_date` and `before_date` of ast.rs.
#![tactic(auto)]

pub mod chain;
pub mod date;
pub mod expr;
mod step;
pub mod time;
pub mod weekday;

// The whole phrase: `DateExpr` and `DateTime` of ast.rs, read into a chain.
#![tactic(auto)]

pub mod chain;
pub mod date_time;
pub mod gather;
pub mod read;

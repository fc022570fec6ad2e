// A ready phrase run at an instant of a zone, and what the clocks show there.
#![tactic(auto)]

pub mod local;
mod run;

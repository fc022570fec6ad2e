// Instants and civil times of a zone, found by place in its checked file.
#![tactic(auto)]

pub mod civil;
pub mod instants;
pub mod search;

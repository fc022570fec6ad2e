// The steps of a ready phrase: how they are joined, and how a list of them is run at a now.
#![tactic(auto)]

pub mod plan;
pub mod run;

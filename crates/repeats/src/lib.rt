// The occurrences of a rule from its start on.
#![tactic(auto)]

pub mod courses;
pub mod days;
pub mod listing;

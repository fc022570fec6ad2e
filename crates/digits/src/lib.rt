// Digits, fixed forms, and bytes put into a lent buffer.
#![tactic(auto)]

pub mod digit;
pub mod form;
pub mod put;

// As text: moments and answers, and what the Rust's Debug prints, without blanks, of a phrase's lexemes and of its reading.
#![tactic(auto)]

pub mod answers;
pub mod lexemes;
pub mod moments;
pub mod reading;

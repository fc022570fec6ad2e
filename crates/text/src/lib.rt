// What the program `fuzzy` is made of, on slices: a first line as a now, the lines of a text, an answer as text.
#![tactic(auto)]

mod line;
pub mod now;
mod spelling;
pub mod stream;

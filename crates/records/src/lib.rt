// A ready phrase as bytes: n records of 16 bytes, little-endian.
#![tactic(auto)]

pub mod endian;
pub mod record;
pub mod run;
pub mod words;

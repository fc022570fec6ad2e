// The zone of a TZif file of RFC 9636, read by place from the lent slice.
#![tactic(auto)]

pub mod file;
pub mod octets;
mod tables;
pub mod zone;

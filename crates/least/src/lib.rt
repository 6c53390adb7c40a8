// Least values: a synopsis that keeps the 64 least hashes of the readings that it tells of.
#![tactic(auto)]

pub mod kind;
pub mod row;

// Sample: a synopsis that keeps the 32 readings that come first in the order of their hashes, whole.
#![tactic(auto)]

pub mod kind;
pub mod record;
pub mod row;

// A network of hosts that pass frames of one synopsis kind to each other, whichever it is.
#![tactic(auto)]

pub mod calls;
pub mod fault;
pub mod slot;
pub mod table;

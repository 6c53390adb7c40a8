// What a synopsis kind is: its meaning, its laws, its calls, and their refusals.
#![tactic(auto)]

pub mod fault;
pub mod kind;

// Turns made by a network's calls, and the promise over every list of them.
#![tactic(auto)]

pub mod answer;
pub mod answers;
pub mod fault;
pub mod listener;
pub mod run;
pub mod turn;
pub mod values;

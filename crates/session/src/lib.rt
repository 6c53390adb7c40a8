// Sessions: the lines of a script served on a network, and whole scripts replayed.
#![tactic(auto)]

pub mod answer;
mod kinds;
pub mod paged;
mod put;
pub mod replay;
pub mod serve;
pub mod stream;

// Synopses made of other synopses.
#![tactic(auto)]

pub mod pair;

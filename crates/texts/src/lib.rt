// Bytes as text.
#![tactic(auto)]

pub mod shown;

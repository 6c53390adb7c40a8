// Ordered elements, runs of them, and the k-union of two runs.
#![tactic(auto)]

pub mod element;
pub mod keyed;
mod place;
pub mod row;
pub mod run;
pub mod union;
pub mod word;

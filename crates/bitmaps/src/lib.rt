// Bitmaps: a synopsis that keeps the marks of the readings that it tells of, as bits of 64 maps.
#![tactic(auto)]

pub mod estimate;
pub mod kind;
pub mod maps;
mod root;
pub mod zeros;

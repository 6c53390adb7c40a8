// The bytes of frames: numbers, highest byte first, and the header that every frame begins with.
#![tactic(auto)]

pub mod header;
pub mod number;

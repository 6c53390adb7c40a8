// Scripts: the lines of an input, what each line asks for, and why it is refused.
#![tactic(auto)]

pub mod ask;
mod digits;
pub mod fault;
mod field;
pub mod line;
pub mod pairs;

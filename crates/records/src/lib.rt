// Kinds whose forms are runs of records: how records are written one behind the other, and the frames of their runs.
#![tactic(auto)]

pub mod frame;
pub mod record;

use crate::record::SampleRecord;
use runs::row::Row;

/// A sample: a plain row of the readings that come first in the order of their hashes, 32 at most (a coordinated sample, after
/// Cohen and Kaplan 2007). A row that is no run stands for the empty one, and every call reads it so.
#[derive(Clone, Copy, PartialEq, Eq, Debug)]
pub struct Sample {
    /// the records, rising, and zeros in unused places
    pub row: Row<SampleRecord, 32>,
}

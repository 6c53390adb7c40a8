use runs::row::Row;

/// Least values: a plain row of the least hash values seen, 64 at most (k-least values, after Bar-Yossef and others 2002). A
/// row that is no run stands for the empty one, and every call reads it so.
#[derive(Clone, Copy, PartialEq, Eq, Debug)]
pub struct LeastValues {
    /// the hash values, rising, and 0 in unused places
    pub row: Row<u64, 64>,
}

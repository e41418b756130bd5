/// A column of a key, and its direction.
#[derive(Clone, Copy, PartialEq)]
pub struct KeyCol {
    /// Its place among the table's columns, from 0.
    pub column: usize,
    /// Whether the order of its cells is turned round: the greatest comes first, and Null last.
    pub descending: bool,
}

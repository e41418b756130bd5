/// What an undo step answers.
#[derive(Clone, Copy, PartialEq, Eq)]
pub struct Undone {
    /// The number of its record; 0 where the transaction had no write, so that it ended without one.
    pub number: usize,
    /// How many writes of the transaction still stand. With none the transaction has ended.
    pub left: usize,
}

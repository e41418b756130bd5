use crew::{Known, Opened, Receipt};

/// How a session of a race has ended.
#[derive(Drop)]
pub struct SessionEnd<T: Opened> {
    /// How many of its commands were accepted.
    pub accepted: usize,
    pub refused: usize,
    /// For each record that it wrote to the log.
    pub receipts: Vec<Receipt<T>>,
    /// What it knows of the log.
    pub known: Known<T>,
}

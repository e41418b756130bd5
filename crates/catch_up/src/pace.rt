/// Is told how far a batch is, by the thread that applies it. It may hold up who tells it.
pub trait Pace {
    /// So many more of its entries were applied.
    fn applied(&self, count: usize);
}

/// Is told how far a run is.
pub trait Watch {
    /// So many rows are read.
    fn show_rows(&mut self, rows: u64);

    /// So many of the table's pages are scanned, and so many indexes have their pairs in order.
    fn show_build(&mut self, scanned: u64, pages: u64, loaded: u64);

    /// What was shown goes, since something else is to be said.
    fn clear(&mut self);
}

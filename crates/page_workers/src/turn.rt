/// What a worker does with the copies that it has seen.
#[derive(Clone, Copy)]
pub enum Turn {
    /// It takes the next one.
    Digest,
    /// It takes all of them, and closes its runs.
    Seal,
}

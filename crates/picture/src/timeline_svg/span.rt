/// What lasts in a lane from one row to another.
#[derive(Drop)]
pub struct Span {
    pub lane: usize,
    /// The first row of it.
    pub first: usize,
    /// The last row of it.
    pub last: usize,
    pub kind: SpanKind,
}

/// What it is that lasts.
#[derive(Clone, Copy, PartialEq, Eq)]
pub enum SpanKind {
    /// A transaction is open.
    Txn,
    /// So many of a range's pages are copied.
    Scan { copied: u32, pages: u32 },
    /// An index is being built.
    Build,
    /// An index is ready.
    Ready,
}

/// What a record did in one lane.
#[derive(Drop)]
pub struct Mark {
    pub lane: usize,
    pub kind: MarkKind,
    pub text: String,
}

/// What a mark says.
#[derive(Clone, Copy, PartialEq, Eq)]
pub enum MarkKind {
    /// A row was written, on that side of the scan.
    Write(Side),
    /// A write was undone, on that side of the scan.
    Undo(Side),
    /// An entry of a side-file that takes a pair out.
    Delete,
    /// An entry of a side-file that puts a pair in.
    Insert,
    /// Entries went from a side-file into its ring.
    Feed,
    /// Entries were applied to an index.
    Apply,
    /// An index is ready.
    Ready,
    /// An index was refused.
    Shared,
    /// Something else.
    Note,
}

/// On which side of a build's scan a page is.
#[derive(Clone, Copy, PartialEq, Eq)]
pub enum Side {
    /// No build runs.
    NoBuild,
    /// The scan will copy the page.
    Ahead,
    /// The scan has copied the page, or never will.
    Behind,
}

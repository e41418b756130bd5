/// A lane, and what stands over it.
#[derive(Drop)]
pub struct Lane {
    pub kind: LaneKind,
    pub name: String,
}

/// What a lane is for.
#[derive(Clone, Copy, PartialEq, Eq)]
pub enum LaneKind {
    /// A range of pages that a build reads.
    Range,
    /// The rows that are put in by transactions of their own.
    Table,
    Transaction,
    Workers,
    /// An index of a build, with its side-file.
    Index,
}

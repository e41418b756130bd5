/// What an index got in the end, at the right of the row where it was decided.
#[derive(Drop)]
pub struct Gain {
    pub row: usize,
    pub kind: GainKind,
    pub title: String,
    pub lines: Vec<String>,
}

/// What became of the index.
#[derive(Clone, Copy, PartialEq, Eq)]
pub enum GainKind {
    Ready,
    Shared,
}

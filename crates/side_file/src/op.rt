/// What a change does to the pair of an entry.
#[derive(Clone, Copy, PartialEq, Eq)]
pub enum Op {
    Delete,
    Insert,
}

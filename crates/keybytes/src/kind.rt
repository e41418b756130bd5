/// What a column's cells are, Null aside: every column takes Null.
#[derive(Clone, Copy, Default, PartialEq, Eq)]
pub enum Kind {
    #[default]
    Int,
    Text,
    Flag,
}

use crate::{Key, Rid};

/// An entry of an index: the key of a row, and where the row stands. Pairs are ordered by key, then by RID.
#[derive(Drop, PartialEq, Eq, PartialOrd, Ord)]
pub struct Pair {
    pub key: Key,
    pub rid: Rid,
}

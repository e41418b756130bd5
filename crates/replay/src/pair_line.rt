use keybytes::{Cell, Rid};

/// A pair as it is printed: the columns of its key, and where its row stands.
#[derive(Drop)]
pub struct PairLine {
    pub cells: Vec<Cell>,
    pub rid: Rid,
}

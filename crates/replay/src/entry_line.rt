use builder_core::Op;
use keybytes::{Cell, Rid};

/// An entry of a side-file as it is printed: what it does, the columns of its key, and where the row stands.
#[derive(Drop)]
pub struct EntryLine {
    pub op: Op,
    pub cells: Vec<Cell>,
    pub rid: Rid,
}

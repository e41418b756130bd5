use keybytes::{Cell, Rid};

/// A refused index as it is printed: its number in the build, the columns of the least key that two rows share, and where the two least of
/// its rows stand.
#[derive(Drop)]
pub struct SharedLine {
    pub index: usize,
    pub cells: Vec<Cell>,
    pub first: Rid,
    pub second: Rid,
}

use keybytes::Kind;

/// Which field of a record is the cell of a column, and of what kind it is.
#[derive(Clone, Copy)]
pub struct Source {
    pub at: usize,
    pub kind: Kind,
}

use keybytes::{KeyCol, When};

/// A key specification as it is spelled: whether it is unique, its columns, and what it asks of a row, if anything.
#[derive(Drop)]
pub struct Spec {
    pub unique: bool,
    pub columns: Vec<KeyCol>,
    /// The condition that rows of the index meet. An index without one has all rows.
    pub condition: Option<When>,
}

use keybytes::Key;

/// A key that a standing write took from its RID, and that an undo would bring back.
#[derive(Drop)]
pub struct Taken {
    /// The number of the write.
    pub number: usize,
    pub key: Key,
}

use keybytes::Key;

/// What is looked for in an index.
#[derive(Drop)]
pub enum Search {
    /// The rows that have the key.
    Key(Key),
    /// The rows from the first key on, and before the other.
    Between(Key, Key),
}

use keybytes::Key;

/// What a change means for one index at the RID: the key that leaves it, then the key that comes.
#[derive(Drop)]
pub struct Change {
    pub delete: Option<Key>,
    pub insert: Option<Key>,
}

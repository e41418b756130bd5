use keybytes::Kind;

/// The record `table`.
#[derive(Drop)]
pub struct Table {
    /// How many slots a page may have.
    pub slot_limit: u32,
    pub kinds: Vec<Kind>,
}

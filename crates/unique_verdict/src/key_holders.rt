use keybytes::Rid;

/// The RIDs that have a key: as many as a tally has to know.
#[derive(Clone, Copy)]
pub enum KeyHolders {
    None,
    One(Rid),
    Two(Rid, Rid),
    /// Three or more; the least.
    More(Rid),
}

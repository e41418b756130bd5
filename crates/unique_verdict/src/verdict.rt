use keybytes::{Key, Rid};

/// Whether keys are unique.
#[derive(Drop)]
pub enum Verdict {
    Unique,
    /// The least key that two RIDs have, and its two least RIDs.
    Shared { key: Key, first: Rid, second: Rid },
}

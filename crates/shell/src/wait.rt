use keybytes::Fault;

/// What a switch waits for.
#[derive(Clone, Copy)]
pub enum Wait {
    /// The build can't go on for that fault, and is to be given up.
    Spoiled(Fault),
    /// So many pages aren't copied.
    Pages(u64),
    /// The pairs of that index aren't in order.
    Index(usize),
    /// Copies wait for that worker, or it took some since it last sealed.
    Worker(usize),
    /// So many entries are left, which are too many.
    Entries(u64),
    /// So many open transactions have writes that stand, and an index is unique.
    Transactions(usize),
}

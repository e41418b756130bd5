use crate::node::Node;
use keybytes::Pair;

/// What was split off a node, and the pair between the two.
#[derive(Drop)]
pub struct Split {
    pub separator: Pair,
    pub node: Node,
}

/// What an insert did.
#[derive(Drop)]
pub struct Growth {
    /// Whether the pair wasn't there before.
    pub added: bool,
    pub split: Option<Split>,
}

//! Empty leaves that the threads that merge make ahead for the one that fills the tree, so that the first use of the tree's memory is theirs.

use rtrb::Producer;
use std::alloc::Global;
use tree_nodes::{LEAVES_AHEAD, Leaf};

/// How many empty leaves a ring has room for.
pub(crate) const LEAVES: usize = 4 * LEAVES_AHEAD;

/// Puts empty leaves into a ring, where there is room for many, and as long as there is memory. Those that are wanting are made where they are filled.
pub(crate) fn stock(alloc: Global, leaves: &mut Producer<Leaf>) {
    if leaves.slots() < LEAVES_AHEAD {
        return;
    }
    Leaf::take_ahead(alloc);
    for _ in 0..LEAVES_AHEAD {
        if leaves.is_full() {
            return;
        }
        let Ok(leaf) = Leaf::new(alloc) else { return };
        leaves.push_reserved(leaf);
    }
}

//! The nodes of a B+-tree of pairs.
//!
//! A [`Leaf`] is an ordered list of at most 32 pairs. A [`Fan`] is an inner node: at most 32 children of whatever kind, with
//! a pair between each two of them: what is left of it is less, what is right of it isn't. A search in a leaf bisects, one in a
//! fan first counts among the numbers that begin the keys of those pairs. A node takes its memory when it is made; afterwards
//! nothing takes any: a full node is split into an empty one that is handed in.
#![tactic(auto)]

mod fan;
mod leaf;
mod order;
mod room;
mod separators;

pub use fan::{FAN_MAX, Fan};
pub use leaf::{LEAF_MAX, LEAVES_AHEAD, Leaf};
pub use order::{is_after, is_before};

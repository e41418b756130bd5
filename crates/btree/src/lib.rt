//! A B+-tree: an ordered set of pairs of a key and a RID.
//!
//! All pairs stand in leaves, and all leaves at one depth. Between two children of an inner node stands a pair that separates
//! them. An insert into a full leaf splits it; what comes in order fills its leaves. A removal joins no nodes, so a leaf may be
//! empty. A look-up, an insert and a removal go down one path and search in each node.
//!
//! [`Tree::make_room`] takes the memory that one insert may need and changes nothing else; [`Tree::insert`] then can't fail.
//! A [`Loader`] makes a tree of pairs that come in order. [`Tree::apply_sorted`] makes a queue of changes: as far as they are in order, it
//! goes down to each leaf once for all changes that belong there.
#![tactic(auto)]

mod applying;
mod change;
mod growing;
mod loader;
mod node;
mod pairs;
mod range;
mod rooting;
mod spare;
mod split;
mod tree;
mod walking;

pub use change::Change;
pub use loader::Loader;
pub use pairs::Pairs;
pub use range::Range;
pub use tree::Tree;

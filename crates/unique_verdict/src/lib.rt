//! Whether the keys of an index are unique.
//!
//! Beside the tree of an index that is to be unique stands a [`Tally`]: the pairs whose key another pair of the tree has too, in a
//! tree of their own, which is empty as long as keys are unique. It is told of each change of the tree beforehand, and a [`Verdict`]
//! is then read off its first two pairs. A change or a verdict costs a few ways down the trees, and no walk over the pairs.
#![tactic(auto)]

mod key_holders;
mod key_search;
mod pair_changes;
mod tally;
mod verdict;

pub use tally::Tally;
pub use verdict::Verdict;

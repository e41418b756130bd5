//! The merge of an index's runs.
//!
//! [`merge`] reads the first pair of each closed run of the index's spools. [`Merged::next`] gives the least of these heads, puts
//! the next pair of its run in its place, and frees in the spool what it gives: at every moment the pairs given and those still
//! in the runs are together the runs as the merge began, each as often as it was there.
//!
//! Which head is the least is known by a tree of games between the heads (`losers`), so that a pair costs no more comparisons
//! than the tree has levels.
#![tactic(auto)]

mod head;
mod heads;
mod lanes;
mod losers;
mod merged;
mod place;
mod spool_runs;
mod tournament;

pub use head::Head;
pub use heads::Heads;
pub use merged::{Merged, merge};

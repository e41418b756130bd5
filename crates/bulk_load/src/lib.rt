//! The bottom-up load of an index.
//!
//! The sorted pairs of an index come one by one, from a [`Source`]. [`load`] makes a tree of them from left to right: it
//! fills a leaf, puts it behind the leaves before it, and never searches, so that its cost is that of handing the pairs on.
//!
//! Where the pairs are the runs of an index's spools, these are merged, and the tree is filled as the pairs come. [`tree_of`] does it in one thread.
//! [`tree_in_threads`] has a thread for each spool, which merges that spool's runs and puts their pairs into a ring, batch after batch; the
//! thread that called merges what comes out of these rings, and fills the tree. What either answers is said by the same clauses.
//!
//! Which pairs a batch has is said by its type: a load's type, [`Loading`], names the streams of all senders, and a [`Batch`] knows where in its
//! stream its pairs stand. So what comes out of a ring can be told without its other end.
//!
//! All batches are made before a load begins. An empty one goes back to its sender by a second ring, so that no pair takes memory.
#![tactic(auto)]

mod batch;
mod dealing;
mod filling;
mod loading;
mod merged_sources;
mod once;
mod rings;
mod seat;
mod sender;
mod source;
mod stock;
mod stream;
mod threads;

pub use dealing::tree_in_threads;
pub use filling::load;
pub use once::tree_of;
pub use source::Source;

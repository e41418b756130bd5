//! The load of one index: the pairs that the workers' spools hold are merged into a tree, in order, and then the spools are ended.
//!
//! A [`IndexLoad`] owns the spools of its index, one of each worker, and has nothing of its build, so that the loads of several indexes can go
//! side by side in threads. [`merged_tree`] does the same where the spools of all indexes lie in one list, worker by worker; [`move_out`] takes
//! those of one index out of such a list, and [`put_back`] puts them back. Where a spool stands there is said once, by `column` of `specs/Columns.antt`.
//! Each pair of an index is in its spools once, so the merge asks no pair twice of the tree.
#![tactic(auto)]

mod ending;
mod index_load;
mod merging;

pub use ending::end_spools;
pub use index_load::IndexLoad;
pub use merging::{merged_tree, move_out, put_back};

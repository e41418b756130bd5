//! An index that is being built, brought up to date by the entries of its side-file.
//!
//! The pairs that a build scanned are loaded into a tree while writers go on, and the writers' changes wait as entries in the
//! index's side-file. [`Built`] is the tree with the number of its build. [`apply`] takes entries out of the ring and applies
//! them to the tree, in their order; [`apply_batch`] takes all that wait, applies them in the order of their pairs, and tells a [`Pace`] of them.
//!
//! Under [`apply`] an entry leaves the ring once there is room for its pair, so that want of memory loses none: those that were applied
//! stay applied, and the rest waits in order. A batch that wants memory is lost with its index.
#![tactic(auto)]

mod applying;
mod batch;
mod built;
mod changing;
mod pace;

pub use applying::apply;
pub use batch::apply_batch;
pub use built::Built;
pub use pace::Pace;

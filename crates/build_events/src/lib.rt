//! What is asked of a table and of the builds of its indexes, and what that means.
//!
//! An [`Event`] is a write, an undo, a commit or one step of a build, and a [`Reply`] is what it is answered. This library has the meaning of
//! events and no function: why an event is refused and what it does otherwise (`specs/Steps.antt`), what holds of each index as a build
//! switches it in (`specs/Headline.antt`), and what a build has read of a table whose log grew meanwhile: its scans
//! (`specs/Scanning.antt`) and the entries of its side-files (`specs/SideEntries.antt`). Its proofs are the theory of these words: entries
//! applied to the pairs that a build has scanned give the pairs of the rows that stand where it has scanned.
#![tactic(auto)]

mod event;
mod plan;
mod reply;
mod scan;

pub use event::Event;
pub use plan::Plan;
pub use reply::Reply;
pub use scan::Scan;

//! A table with its ready indexes and the build that may run on it: all that a lock has to keep once threads share it.
//!
//! [`Parts`] are a heap with the rings for all its builds, and [`Parts::open`] gives them the name of some [`TableRings`]: [`Live`] is then
//! the table, and [`Ends`] are the ends of the rings that stand beside it, of which a [`Building`] is made. Each step of a table
//! is one call of `Live`; [`UnnamedLive`] is one whose name was taken off. How table and `Building` go together is told by `StandsBeside` of
//! live_lemmas' `specs/Builds.antt`, and what a switch looks at by its `specs/Switching.antt`. [`at_rest`] makes the pairs of a table that
//! nobody writes.
#![tactic(auto)]

mod changes;
mod live;
mod parts;
mod rest;
mod switched;
mod unnamed_live;

pub use build_events::Plan;
pub use building::{Building, Ends, UnnamedBuilding};
pub use keybytes::Pair;
pub use live::Live;
pub use page_workers::{TableRings, Worker};
pub use parts::{INDEXES_MAX, Parts, WORKERS_MAX};
pub use ready_indexes::{ReadyIndex, ReadyIndexes};
pub use rest::at_rest;
pub use side_file::{Entry, Op};
pub use switched::Switched;
pub use unnamed_live::UnnamedLive;

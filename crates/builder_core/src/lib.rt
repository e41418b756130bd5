//! The build of indexes over a table, one event after another.
//!
//! An event is a write, an undo, a commit or one step of a build, and is answered before the next is looked at. A build copies
//! the table's pages, makes the pairs of key and RID of their rows for 1 to 8 indexes, puts the pairs of each in order, and is then
//! switched in: from there on all of them are ready. Why an event is refused and what it does otherwise is said once, by `refusal` and `Does`
//! of build_events' `specs/Steps.antt`; a refused event changes nothing, unless memory or pages ran out in the midst of a build's work, which
//! spoils that build, or memory while entries were applied to an index: those before then stay applied.
//!
//! [`Parts`] are a heap with the rings for all its builds, and [`Parts::open`] gives them the name of some [`TableRings`]: [`Live`] is then
//! the table with its ready indexes, and [`Ends`] are the ends of the rings that stand beside it. [`Core`] is both, with the build
//! that may be running: [`Core::step`] answers one event, and [`run_events`] a list of them. [`UnnamedCore`] is a core whose name was taken
//! off, for callers that can't keep one. The pairs of a build are kept in spools that
//! the caller makes, and gets back ended ([`Core::into_live`]). [`at_rest`] makes the pairs of a table that nobody writes.
#![tactic(auto)]

mod core_calls;
mod core_looks;
mod core_steps;
mod run;
mod unnamed_core;

pub use build_events::{Event, Plan, Reply, Scan};
pub use core_steps::Core;
pub use live_table::{
    Building, Ends, Entry, INDEXES_MAX, Live, Op, Pair, Parts, ReadyIndex, ReadyIndexes, Switched,
    TableRings, WORKERS_MAX, Worker, at_rest,
};
pub use run::run_events;
pub use scan_range::Dealing;
pub use unnamed_core::UnnamedCore;

//! What stands beside a table while its indexes are built: the workers, their spools and the work on each index.
//!
//! A [`Building`] has all of it, and no lock keeps it: the workers of the build that runs, each with the end of its ring and its
//! spools, the ends of the side-files' rings, the spools that no worker has, and the [`Work`], of each index an [`IndexWork`]. While its
//! workers are lent to threads it is [`WithoutWorkers`], and [`WithoutLoads`] while the loads of its indexes are. A [`UnnamedBuilding`] is one whose
//! name was taken off. Between two builds the rings'
//! ends are [`Ends`], and what the next build's workers begin with is made by [`prepare`]. What its workers, spools and work have to do with
//! the build that a table knows is said once, by `AreAtWork` and `IsWorkOfBuild` of `specs/WorkOn.antt`.
#![tactic(auto)]

mod batch_turns;
mod batches;
mod beside;
mod ends;
mod equipment;
mod index_work;
mod lending;
mod load_lending;
mod loads;
mod looking;
mod returning;
mod rings;
mod sorted;
mod turns;
mod unnamed_building;
mod work;

pub use beside::Building;
pub use ends::Ends;
pub use equipment::{Equipment, prepare};
pub use index_work::IndexWork;
pub use lending::WithoutWorkers;
pub use load_lending::WithoutLoads;
pub use unnamed_building::UnnamedBuilding;
pub use work::Work;

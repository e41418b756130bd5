//! Runs of the program `sfbench`: how fast indexes are built on a table of random rows.
//!
//! [`read`] reads what is to be measured into [`Options`]. [`by_turns`] does one phase after the other in one thread; all that is asked of the core
//! stands in `subject`. [`by_threads`] has sessions fill a table, lets writers write alone for a while, and builds the indexes beside them by workers
//! in threads of their own. Both compare each index with the table then, and tell the same [`Figures`], which [`print`] prints. Where a build in threads
//! is given up, the figures tell what was measured until then.
//!
//! What a build holds the table's lock for can't be seen from outside. A writer notes how long each of its calls took, the wait for the lock in
//! it: what was left of a hold that it waited for was no longer than the longest call of that stage. A write may wait for the build too, until
//! that has taken enough of what was written; who begins or commits a transaction waits for the lock alone, so these calls are counted by
//! themselves besides. While pairs are put in order no step of the build takes the lock at all, so what is met there is the system's.
#![tactic(auto)]

mod build;
mod column;
mod command_line;
mod compare;
mod condition;
mod course;
mod dealing;
mod done;
mod failure;
mod figures;
mod further;
mod hand;
mod histogram;
mod options;
mod peak;
mod phase;
mod report;
mod rows;
mod sessions;
mod span;
mod spool_pages;
mod subject;
mod threads;
mod timer;
mod turns;
mod values;
mod watch;
mod writer;

pub use command_line::read;
pub use failure::Failure;
pub use figures::Figures;
pub use options::Options;
pub use peak::peak_in;
pub use report::print;
pub use threads::by_threads;
pub use turns::by_turns;

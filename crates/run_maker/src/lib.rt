//! Sorted runs of the pairs on copies of pages.
//!
//! A [`Maker`] takes copies of pages, one after the other. Of each row it makes a pair for each index that takes the row; as soon as an index has
//! [`RUN_PAIRS`] of them they are sorted and spooled as a run, and [`Maker::seal`] spools what is left. A row is read once,
//! whatever the number of indexes, and a key is written once, into the pair that keeps it. Runs are sorted by [`StdSort`], or by a
//! [`RunSort`] that is lent, as [`ParSort`], which works in several threads.
#![tactic(auto)]

mod images;
mod maker;
mod open_run;
mod par_sort;
mod rows;
mod run_sort;
mod sealing;
mod shareable;
mod sorting;
mod spooling;
mod std_sort;

pub use maker::Maker;
pub use open_run::RUN_PAIRS;
pub use par_sort::{LEAST_IN_THREADS, ParSort};
pub use run_sort::RunSort;
pub use shareable::Shareable;
pub use std_sort::StdSort;

//! Races: sessions that write in threads of their own while a build runs beside them.
//!
//! [`race`] reads the script of a race, runs it and prints how it went: what became of each index, how many commands of each session
//! were accepted and refused, whether each ready index has the pairs of the rows, and whether receipts or pages are missing.
#![tactic(auto)]

mod builder;
mod built;
mod check_line;
mod ended;
mod ends_script;
mod gathered;
mod outcome;
mod planned;
mod printing;
mod progress_line;
mod race_report;
mod resting;
mod rows;
mod run;
mod running;
mod session;
mod session_line;
mod session_script;
mod splitting;
mod threads;
mod unwatched;
mod watch;
mod watching;

pub use progress_line::ProgressLine;
pub use run::{race, race_watched};
pub use unwatched::Unwatched;
pub use watch::Watch;

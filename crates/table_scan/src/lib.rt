//! What a table knows of the build that runs on it: which page was scanned when, and the side-files of its indexes.
//!
//! A [`TableScan`] is the build: its number, what makes the keys of its indexes, how far each of its ranges is, and of each page that was
//! copied, for which worker, and how long the log was then. Beside it stand the side-files, one for each index: [`note`] appends what a change of
//! a row, made ready, means for each of them, by what was scanned at that moment; [`reset_all`] and [`empty_all`] forget their entries.
//! What of all this belongs together is said once, by `IsBuildOf` of `specs/TableBuilds.antt` and `HasEntries` of `specs/SideFiles.antt`.
#![tactic(auto)]

mod notes;
mod side_files;
mod table_scan;

pub use notes::note;
pub use side_files::{empty_all, reset_all, take_all_left};
pub use table_scan::TableScan;

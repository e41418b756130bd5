//! Indexes on the rows of a file of comma-separated records.
//!
//! [`index`] reads the records into a table, builds the indexes that are asked for in one scan by workers in threads, prints what became of
//! them, and lists the rows that the first index gives for a key or a range of keys, each with its line in the file.
#![tactic(auto)]

mod built;
mod facts;
mod listing;
mod look_up;
mod printing;
mod progress_line;
mod range_text;
mod row_printer;
mod running;
mod search;
mod search_key;
mod searches;
mod spools;
mod table;
mod watching;

pub use progress_line::ProgressLine;
pub use running::{index, refuse};

//! Scripts, run on a table of their own.
//!
//! [`replay`] reads a script, runs its commands one after the other in one thread and prints an answer for each. A script
//! that can't be run is named on another stream, and then nothing runs. [`check`] and [`check_race`] only look at a script.
#![tactic(auto)]

mod answer;
mod entry_line;
mod labels;
mod listing;
mod output;
mod output_failed;
mod pair_line;
mod parts;
mod plan;
mod report;
mod run;
mod session;
mod shared_line;
mod status;
mod txn;

pub use answer::Answer;
pub use entry_line::EntryLine;
pub use labels::Labels;
pub use listing::shared_lines;
pub use output::Output;
pub use output_failed::OutputFailed;
pub use pair_line::PairLine;
pub use parts::{table_heap, table_parts};
pub use plan::{is_in_limits, key_specs};
pub use report::{check, check_race, refuse};
pub use run::{refuse_table, replay};
pub use session::{Session, has_refused};
pub use shared_line::SharedLine;
pub use status::Status;

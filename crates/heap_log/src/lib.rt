//! The log of a table: every write, undo, commit and switch, in order.
//!
//! Records are numbered from 1 and never change. A write stands until an undo record names it; the row at a RID is that
//! of the newest standing write there. An undo names a record that is there already; where that is no write, or is
//! undone already, it takes nothing back. Each write leads to the one before it of its transaction, standing or not.
//! Room is reserved first, for so many records and at the RIDs that are written, and adding a record then takes no memory.
//!
//! [`Log`] is the log, a list of [`LogRec`] to its callers. [`Verdicts`] is what a switch record says of a build's
//! indexes, an [`Outcome`] each.
#![tactic(auto)]

mod chain;
mod heads;
mod kept_number;
mod link;
mod log;
mod outcome;
mod page_heads;
mod record;
mod rid_head;
mod slot_heads;
mod txn_head;
mod verdicts;

pub use keybytes::Rid;
pub use log::Log;
pub use outcome::Outcome;
pub use record::LogRec;
pub use verdicts::Verdicts;

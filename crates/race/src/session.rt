//! What a session of a race does on the table that all share.
//!
//! [`run_session`] runs the commands of one session one after the other: it counts those that are accepted and those that are refused,
//! keeps every receipt, and at its end undoes the transactions that it left open. It may wait for the table's lock.

mod run;
mod running;
mod session_end;

pub use run::run_session;
pub use session_end::SessionEnd;

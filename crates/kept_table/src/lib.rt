//! A table with its builds, for a caller that can't keep a type between two calls, as a program in C.
//!
//! [`Kept`] is a table without a name. Each call names it for as long as it takes, does what a [`LeasedCore`] does there, and takes the name off
//! again; neither takes memory. What a call answers and leaves is told by the core's own words.
//!
//! [`LeasedCore`]: leased_core::LeasedCore
#![tactic(auto)]

mod advancing;
mod builds;
mod catching_up;
mod counted;
mod decided;
mod kept;
mod lookups;
mod page_count;
mod progress;
mod reads;
mod unnamed_counted;
mod waits;

pub use kept::Kept;
pub use progress::Progress;

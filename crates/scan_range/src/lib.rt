//! The pages that a build reads, dealt into ranges.
//!
//! A build reads the pages that the table had when it started. They are cut into ranges, one after another: range 0 begins
//! at page 0, each other range where the one before it ends, and the last ends behind the last page, so that each page
//! lies in exactly one range. A range is read from its first page on, one page a time.
//!
//! [`Dealing`] says how the ranges are asked for, [`Cuts`] where they end, and [`Ranges`] how far each of them is.
#![tactic(auto)]

mod cuts;
mod dealing;
mod ranges;

pub use cuts::{Cuts, RANGES_MAX};
pub use dealing::Dealing;
pub use ranges::Ranges;

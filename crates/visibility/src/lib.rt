//! Which changes of a table a running index build has to hear of, and what they mean for an index.
//!
//! A build copies a page once and then moves on. What changes on a page that it hasn't copied yet it will find in the copy,
//! so it needs no word of it; what changes on a page that it copied already, or on a page that came after the build
//! began and that it never copies, is *visible*: it has to reach the index by an entry of the side-file.
//!
//! For one index a visible change of a RID's key means a [`Change`]: the old key is deleted there and the new one inserted.
//! A change that leaves the key as it was means nothing to the index.
#![tactic(auto)]

mod change;
mod rules;

pub use change::Change;
pub use rules::{entries, visible};

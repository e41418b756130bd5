//! Runs of pairs, kept on leased pages until they are merged.
//!
//! A [`Spool`] takes pairs one after the other into its open run; once the run is closed, its pairs are read in order and freed
//! from the front. A worker keeps one spool for each index that it makes pairs for. A [`PagedSpool`] keeps its runs on pages that
//! it leases from its account; how pairs stand in the bytes of a page is up to its kind of page, a [`PageOfPairs`]. The pages of
//! a [`PlainSpool`] have each pair with its whole key, as `area` says. Other kinds of spools may keep their runs elsewhere:
//! who works with spools is generic in the kind, or takes `Box<dyn Spool + Send>`.
//!
//! No drop of a box tells its owner anything. So a spool owns its account, [`Spool::end`] gives every page back to it, and
//! [`Spool::take_account`] hands it over with all its pages; [`give_up`] does both.
//!
//! A paged spool takes all its memory when it is made, but for keys that are read: pages move from frame to frame, and no frame
//! or run needs memory later on.
//!
//! Which kind of pages a build's spools have may be chosen when it starts: a [`SpoolChoice`] gives each spool, by its number, a [`SpoolKind`](spool_ledger::SpoolKind).
#![tactic(auto)]

mod area;
mod boxed;
mod chain;
mod choice;
mod giving_up;
mod many;
mod marks;
mod page_of_pairs;
mod paged_spool;
pub mod places;
mod plain_page;
mod run;
mod spool;

pub use choice::SpoolChoice;
pub use giving_up::{give_up, give_up_all};
pub use many::{are_empty, end_all};
pub use page_of_pairs::PageOfPairs;
pub use paged_spool::PagedSpool;
pub use plain_page::PlainPage;
pub use spool::Spool;

/// A spool whose pages keep each pair with its whole key.
pub type PlainSpool = PagedSpool<PlainPage>;

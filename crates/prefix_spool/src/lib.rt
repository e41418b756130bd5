//! Kinds of spools beside the plain one.
//!
//! A [`PrefixSpool`] keeps its runs on pages that it leases from its account, as a plain spool does, but of each key only what differs from the key
//! before it; how a pair stands on a [`PrefixPage`] is told in `area`. It pays where neighbours in a sorted run begin alike: a pair takes two bytes
//! more than on a plain page, and as many less as its key shares with the key before it.
//!
//! A [`SpoolOfKind`] is a plain spool or a prefix spool. [`spools_over`] makes those of a build, each of the kind that a choice gives its number.
//!
//! Two kinds stand round a spool of any kind and pass each call on to it. A [`CountedSpool`] keeps how many pages that spool had leased at
//! most, whenever a run ended. A [`FaultySpool`] is for tests: it fails where the [`Coming`] says that it was made with, is full from some push on or
//! refuses one read for want of memory. It is a lawful spool all the same: where a push is refused it is full, and no pair is lost.
#![tactic(auto)]

mod area;
mod coming;
mod counted;
mod either;
mod faulty;
mod fronts;
mod making;
mod marks;
mod numbers;
mod page;

pub use coming::Coming;
pub use counted::CountedSpool;
pub use either::SpoolOfKind;
pub use faulty::FaultySpool;
pub use fronts::shared_front;
pub use making::{new_spool, spools_over};
pub use numbers::numbers_on_a_page;
pub use page::PrefixPage;
use run_spool::PagedSpool;

/// A spool whose pages keep of each key only what differs from the key before it on the same page.
pub type PrefixSpool = PagedSpool<PrefixPage>;

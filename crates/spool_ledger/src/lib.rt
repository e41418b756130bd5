//! The pages that spools keep their pairs on, and who has how many of them.
//!
//! A [`Pool`] takes the memory of all its pages when it is made. It is split into accounts, each with a quota of its pages. A
//! spool leases a [`Page`] from its [`Account`] and gives it back there: leased and free pages of an account together are
//! its quota, at any time. Whoever has a page has it alone, so no page is leased twice or given back twice. In the end the pool
//! reclaims its accounts, and tells whether each of them has all its pages.
//!
//! What stands behind a spool is told by its [`SpoolKind`] with pool and quota of its account.
#![tactic(auto)]

mod account;
mod kind;
mod page;
mod pool;

pub use account::Account;
pub use kind::SpoolKind;
pub use page::{PAGE_SIZE, Page};
pub use pool::Pool;

//! What is known of a log that only grows, beyond the hold of the lock that guards it.
//!
//! A table's log lies under a lock. Whoever held it has seen the log as it was; afterwards others add to it. So what one knows from
//! an earlier hold is a beginning of the log. [`Keeper`] stays with the log, under the lock, and knows it whole; [`Known`] is
//! taken along, and is compared with the keeper's log when its owner holds the lock again.
//!
//! Both are seats of one table of `atomic_table`, whose rule is that what any seat knows is a beginning of what the keeper knows. The
//! records themselves are in no seat: they stand in contracts alone, and a seat takes a few words of memory whatever the log's
//! length. Nothing here waits for anybody, and nothing takes memory once [`Unnamed::new`] has answered.
#![tactic(auto)]

mod keeper;
mod known;
mod named;
mod rule;
mod unnamed;
mod view;

pub use keeper::Keeper;
pub use known::Known;
pub use named::Named;
pub use unnamed::Unnamed;
pub use view::View;

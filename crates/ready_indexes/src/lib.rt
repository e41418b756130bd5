//! The indexes of a table that are ready to be used.
//!
//! A ready index has the pairs of exactly the rows that stand and that it takes, at each moment. So whoever changes the table changes its ready indexes in the
//! same step, and [`ReadyIndexes`] are all of a table's as one value: it is asked whether a row may have its keys
//! ([`ReadyIndexes::check`]), takes all memory that a change wants ([`ReadyIndexes::prepare`]), and then changes the table together with
//! the indexes ([`ReadyIndexes::perform`]), which nothing refuses any more.
//!
//! Beside each unique index stand the keys that open transactions may give back: another transaction gets no such key, so that a
//! rollback never makes two rows share one.
#![tactic(auto)]

mod key_checks;
mod keys;
mod ready_index;
mod ready_indexes;

pub use keys::key_there;
pub use ready_index::ReadyIndex;
pub use ready_indexes::ReadyIndexes;

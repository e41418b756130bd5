//! Keys of a unique index that open transactions took away.
//!
//! Once a unique index is ready, a key that a standing write of an open transaction took from its row may not go to another row: an
//! undo would bring it back, and two rows would have it. The transaction guards the key until it commits or undoes that write.
//! [`Guards`] keeps the keys so guarded of one index. Its owner asks it before each write for the other transaction that guards the new
//! key, and tells it of each write, undo and commit.
//!
//! The keys stand by transaction, in the order of the writes, beside a map with how often each is taken. So a look-up goes down one
//! map for each transaction that guards keys, an undo looks at the last key of each, and a commit drops the transaction's own.
#![tactic(auto)]

mod guards;
mod key_counts;
mod taken;
mod txn_guards;

pub use guards::Guards;
pub use taken::Taken;

//! The side-file of an index that is being built: what changed in the pages that the build has scanned already.
//!
//! Whoever changes a row appends an [`Entry`] here. Entries leave in the order in which they came: [`SideFile::feed`] moves
//! the first of them into a ring one by one, [`SideFile::feed_batch`] many at once, by whole chunks. Whoever builds the index takes
//! them out at the ring's [`EntryEnd`], in another thread. Room for an entry is reserved first; appending it and feeding then take no
//! memory and can't be refused.
//!
//! A contract sees what was fed since the last reset, what is left, how many more entries find room, and this end of
//! the ring: all that was ever sent, and the places known to be free. So a caller that has both ends at hand can show that
//! what came out is what was appended.
#![tactic(auto)]

mod entry;
mod entry_end;
mod op;
mod portion;
mod portion_queue;
mod side_file;

pub use entry::Entry;
pub use entry_end::EntryEnd;
pub use op::Op;
pub(crate) use portion::{Counted, Portion};
pub use side_file::{RING_ENTRIES, SideFile};

//! A list and a queue that grow by chunks of 1,024 items: where they grow, no item moves.
//!
//! [`ChunkList`] is read and written at any place, and grows at its end. [`ChunkQueue`] takes items at its end and gives them
//! at its front, one by one or by whole chunks. Room is reserved first; what is put into it then takes no memory.
//!
//! Contracts see the items, in order, and the room: how many more can be put in without memory.
#![tactic(auto)]

mod chunks;
mod list;
mod list_items;
mod queue;
mod queue_items;

pub use list::ChunkList;
pub use list_items::ListItems;
pub use queue::ChunkQueue;
pub use queue_items::QueueItems;

/// How many items a chunk has places for.
pub const CHUNK: usize = 1_024;

/// More items than a list or a queue has, with those that it has room for.
const ITEMS_END: usize = 9_223_372_036_854_775_808;

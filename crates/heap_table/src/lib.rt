//! The heap table: rows in slotted pages, changed by transactions, with a log of every change.
//!
//! A row stands at a RID, its page and its slot there. The rows are always those that the log leaves standing. An insert
//! takes the lowest page with room, there the lowest free slot, else a new page. A RID that an open transaction wrote is
//! held until that transaction ends: others are refused, its slot is not used again, and the room for every row that an
//! undo could bring back stays reserved. A rollback undoes write after write, the newest first, and always fits.
//!
//! Rows are given out by a read of one row or by a copy of a whole page, each of which is counted as one visit.
//!
//! [`Heap`] is the table, which contracts see as its log and its open transactions. A change can be made [`Ready`] first,
//! which takes its memory, and be performed later without being refused. [`PageImage`] is a copy of a page, from which
//! its rows are read without the table.
#![tactic(auto)]

mod changes;
mod heap;
mod limits;
mod open_txn;
mod page_image;
mod pages;
mod performed;
mod ready;
mod room_tree;
mod rooms;
mod undone;

pub use heap::Heap;
pub use limits::{OPEN_MAX, PAGES_MAX, SLOTS_MAX};
pub use open_txn::OpenTxn;
pub use page_image::PageImage;
pub use performed::Performed;
pub use ready::Ready;
pub use undone::Undone;

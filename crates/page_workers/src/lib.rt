//! What the workers of an index build do outside of the table's lock.
//!
//! The step that holds the lock copies a page and puts the copy into the ring of one worker: a [`PagePutter`] is that end of a
//! ring, which has room for [`RING_IMAGES`] copies. The [`Intake`] at the other end takes the copies out, and lets its maker put the
//! pairs of key and RID of their rows into the spools that it is lent, one for each index.
//!
//! Rings live longer than builds, so each copy carries the number of its build ([`Copied`]), and a worker drops what was put
//! for another build. A worker whose memory or pages run out spoils its build; [`Intake::restart`] begins the next one.
//!
//! A [`Worker`] is one place of a build: such an end, with the maker and the spools of its own. Its type keeps what they hold, so a
//! thread that is lent one need only promise that it is the same worker that comes back, with its own spools.
//!
//! A contract sees of an end all that it ever put or took, so that a caller with both ends at hand can show that what was
//! taken is what was put.
#![tactic(auto)]

mod copied;
mod intake;
mod page_putter;
mod table_rings;
mod turn;
mod worker;

pub use copied::Copied;
pub use intake::Intake;
pub use page_putter::{PagePutter, RING_IMAGES, page_ring};
pub use table_rings::TableRings;
pub use turn::Turn;
pub use worker::Worker;

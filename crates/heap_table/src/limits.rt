//! The limits of a table.

/// The most slots that a page of a table may have: the greatest limit that [`Heap::new`](crate::Heap::new) can be given.
pub const SLOTS_MAX: u8 = u8::MAX;

/// The most pages that a table may have.
pub const PAGES_MAX: u32 = 65_536;

/// The most transactions of a table that may be open at a time.
pub const OPEN_MAX: usize = 64;

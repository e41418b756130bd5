//! What a call answers where no fault does: the numbers below 10.

/// The call did what it was asked for.
pub(crate) const DONE: u8 = 0;

/// The table is not open.
pub(crate) const CLOSED: u8 = 1;

/// The table is open already.
pub(crate) const OPENED: u8 = 2;

/// There is no further pair.
pub(crate) const END: u8 = 3;

/// The buffer is too small; the length that it needs was written.
pub(crate) const ROOM: u8 = 4;

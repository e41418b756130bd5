use crate::Undone;
use heap_log::Rid;

/// What a change answers that was made ready before.
#[derive(Clone, Copy, PartialEq, Eq)]
pub enum Performed {
    /// An insert, an update or a delete: the number of its record, and where it wrote.
    Written { number: usize, rid: Rid },
    Undone(Undone),
}

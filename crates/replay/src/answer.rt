use crate::entry_line::EntryLine;
use crate::pair_line::PairLine;
use crate::shared_line::SharedLine;
use heap_log::Verdicts;
use keybytes::{Fault, Rid, Row};

/// What a command is answered.
#[derive(Drop)]
pub enum Answer {
    Done,
    /// A number alone: of a transaction, a log record or a page, or how many there are of something.
    Number {
        number: u64,
    },
    /// Where a row stands.
    Row {
        rid: Rid,
    },
    /// A change, with the number of its log record.
    Written {
        number: usize,
        rid: Rid,
    },
    /// An undo, with the number of its log record, 0 where there was nothing to undo, and the number of writes that are left.
    Undone {
        number: usize,
        left: usize,
    },
    /// The row at a RID.
    Cells {
        row: Row,
    },
    /// A switch that decided, with the number of its log record, and how many pages that its build leased are missing.
    Switched {
        number: usize,
        verdicts: Verdicts,
        pages: usize,
    },
    /// The same, where it refused indexes, with a line for each of these.
    SomeRefused {
        number: usize,
        verdicts: Verdicts,
        shared: Vec<SharedLine>,
        pages: usize,
    },
    /// The pairs of an index, in order.
    Pairs {
        lines: Vec<PairLine>,
    },
    /// The entries of a side-file, in order.
    Entries {
        lines: Vec<EntryLine>,
    },
    /// The build was given up, and so many pages that it leased are missing.
    Abandoned {
        pages: usize,
    },
    Refused {
        fault: Fault,
    },
}

use heap_log::Verdicts;
use keybytes::{Fault, Rid};

/// What an event is answered.
#[derive(Drop)]
pub enum Reply {
    /// With the number of the transaction.
    Begun { txn: u64 },
    /// With the number of the log record.
    Written { number: usize, rid: Rid },
    /// With the number of the log record, 0 where the transaction had no write to undo, and the number of its writes that
    /// still stand. With none it has ended.
    Undone { number: usize, left: usize },
    /// With the number of the log record.
    Committed { number: usize },
    /// With the number of pages that the build reads.
    Started { pages: u32 },
    /// With the number of the page, from 0.
    Scanned { page: u32 },
    /// With the number of copies that the worker took: 0 or 1.
    Digested { images: usize },
    /// With the number of copies that the worker took.
    Sealed { images: usize },
    /// With the number of pairs that were put in order: 0 where they were in order already.
    Loaded { pairs: usize },
    /// With the number of entries that went into the ring.
    Fed { entries: usize },
    /// With the number of entries that were applied.
    Applied { entries: usize },
    /// With the number of the log record, and what became of each index of the build.
    Switched { number: usize, verdicts: Verdicts },
    /// No transaction may begin for now.
    FenceSet,
    /// The build was given up.
    Abandoned,
    /// With the cause.
    Refused { fault: Fault },
}

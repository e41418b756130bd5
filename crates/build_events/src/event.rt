use crate::Plan;
use keybytes::{Rid, Row};

/// What is asked of a table and of the build of its indexes.
///
/// Behind what each event does stand the faults that refuse it: where several have their cause, the first is answered. Each ready
/// index follows a write and an undo. [`Fault::Memory`] is answered only where none of them has its cause, and so is
/// [`Fault::NoPage`] of a digest or a seal, where a spool had no room for a pair. In a digest, a seal or a load either spoils the
/// build: a scan, a digest, a seal, a load, an apply and a switch are then refused so, right behind [`Fault::NoBuild`] and [`Fault::BadCount`].
#[derive(Drop)]
pub enum Event {
    /// A transaction begins. [`Fault::Fenced`], [`Fault::TooManyTxns`].
    Begin,
    /// The transaction inserts a row. [`Fault::NoSuchTxn`], [`Fault::TxnEnding`], [`Fault::RowShape`], [`Fault::TableFull`]; then, of the
    /// lowest unique ready index that refuses the row's key, [`Fault::Duplicate`] or [`Fault::KeyHeld`].
    Insert { txn: u64, row: Row },
    /// The transaction gives a RID another row. [`Fault::NoSuchTxn`], [`Fault::TxnEnding`], [`Fault::RowShape`], [`Fault::RowHeld`],
    /// [`Fault::NoSuchRow`], [`Fault::PageFull`]; then, of the lowest unique ready index that refuses a key that the RID hadn't,
    /// [`Fault::Duplicate`] or [`Fault::KeyHeld`].
    Update { txn: u64, rid: Rid, row: Row },
    /// The transaction takes the row at a RID away. [`Fault::NoSuchTxn`], [`Fault::TxnEnding`], [`Fault::RowHeld`],
    /// [`Fault::NoSuchRow`].
    Delete { txn: u64, rid: Rid },
    /// The transaction's newest standing write is undone; from then on it can only be undone further. [`Fault::NoSuchTxn`].
    Undo { txn: u64 },
    /// The transaction ends, and keeps its writes. [`Fault::NoSuchTxn`], [`Fault::TxnEnding`].
    Commit { txn: u64 },
    /// A build starts, of 1 to 8 indexes, by 1 to 16 workers over 1 to 256 ranges. [`Fault::BuildRunning`];
    /// [`Fault::BadCount`] for other counts, where more than 32 indexes would be ready with these, and where the spools that are left
    /// aren't one for each worker and index, that of worker w and index i at w times the indexes plus i;
    /// [`Fault::BadColumn`] for an index of other columns than the table's; [`Fault::BadRanges`] for other numbers of ranges, ends that
    /// go down, or a last one that isn't the number of pages; [`Fault::SpoolNotEmpty`]. A refused start leaves the spools for the next.
    Start { plan: Plan },
    /// The next page of the range is copied for the worker. [`Fault::NoBuild`]; [`Fault::BadCount`] for a range or a worker
    /// that isn't there; [`Fault::RangeDone`]; [`Fault::RingFull`] while four copies wait.
    Scan { range: usize, worker: usize },
    /// The worker makes the pairs of the next copy that waits for it, if one does. [`Fault::NoBuild`], [`Fault::BadCount`].
    Digest { worker: usize },
    /// The worker makes the pairs of all copies that wait for it, and closes its run of each index. [`Fault::NoBuild`],
    /// [`Fault::BadCount`].
    Seal { worker: usize },
    /// The pairs of the index are put in order. [`Fault::NoBuild`], [`Fault::BadCount`]; [`Fault::NotScanned`] with the
    /// lowest range that has a page left; [`Fault::NotSealed`] with the lowest worker for which a copy waits or whose run is open.
    Load { index: usize },
    /// At most so many entries of the index's side-file go into its ring, which has room for 256. [`Fault::NoBuild`],
    /// [`Fault::BadCount`].
    Feed { index: usize, most: usize },
    /// At most so many entries that wait in the ring are applied to the pairs of the index. [`Fault::NoBuild`], [`Fault::BadCount`],
    /// [`Fault::NotLoaded`]. Those that were applied before memory was wanted stay applied.
    Apply { index: usize, most: usize },
    /// From now on no transaction may begin, until a switch decides or the build is given up: so that those that are open come to
    /// their end. [`Fault::NoBuild`]. Takes no memory.
    Fence,
    /// The entries that are left are applied, the indexes of the build become ready, and the build ends. Entries that were applied
    /// before memory was wanted stay applied, and it can be asked for again. [`Fault::NoBuild`], [`Fault::NotScanned`],
    /// [`Fault::NotLoaded`]; [`Fault::Behind`] while more than 1,024 entries of all side-files are left to apply; where an index of the
    /// build is unique, [`Fault::Busy`] while open transactions have writes that stand, with their number.
    Switch,
    /// The build is given up, and the fence with it. [`Fault::NoBuild`].
    Abandon,
}

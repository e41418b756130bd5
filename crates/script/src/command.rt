use crate::{Label, Spec, Start};
use keybytes::{Cell, Rid};
use run_spool::SpoolChoice;

/// A line of a script that is run on the table.
#[derive(Drop)]
pub enum Command {
    /// Puts a row in, by a transaction of its own.
    Row {
        cells: Vec<Cell>,
    },
    /// Begins the transaction that the label names from then on.
    Begin {
        label: Label,
    },
    Insert {
        label: Label,
        cells: Vec<Cell>,
    },
    Update {
        label: Label,
        rid: Rid,
        cells: Vec<Cell>,
    },
    Delete {
        label: Label,
        rid: Rid,
    },
    /// Takes the transaction's newest write back.
    Undo {
        label: Label,
    },
    Commit {
        label: Label,
    },
    /// Asks for the row at a RID.
    Get {
        rid: Rid,
    },
    /// Says of which kind the spools of the builds are that start from then on.
    Spools {
        choice: SpoolChoice,
    },
    /// Starts a build.
    Start(Start),
    Scan {
        range: usize,
        worker: usize,
    },
    /// Lets the worker take one of the copies that wait for it.
    Digest {
        worker: usize,
    },
    Seal {
        worker: usize,
    },
    Load {
        index: usize,
    },
    /// Moves entries of an index into its ring, that many at most.
    Feed {
        index: usize,
        most: usize,
    },
    /// Takes entries out of the ring of an index and applies them, that many at most.
    Apply {
        index: usize,
        most: usize,
    },
    /// Lets no transaction begin until the build has decided or is given up.
    Fence,
    Switch,
    /// Gives the build up.
    Abandon,
    /// Asks for the entries of the side-file of an index that is being built.
    Side {
        index: usize,
    },
    /// Asks for the pairs of a ready index.
    Pairs {
        number: usize,
    },
    /// Asks for the pairs that an index of the rows as they stand would have.
    Rest {
        spec: Spec,
    },
}

use crate::failure::Failure;
use crate::lanes::Lanes;
use builder_core::Dealing;
use script::{Command, Label, Start};
use std::alloc::Global;

/// What a command is to do, as far as the picture has to know it once it is done. A transaction is named by its label's place.
#[derive(Drop)]
pub enum Deed {
    Row,
    Begin { txn: usize },
    /// A write; the cells begin with that field of the record.
    Write { txn: usize, cells: usize },
    Undo { txn: usize },
    Commit { txn: usize },
    Start { dealing: Dealing, indexes: usize },
    Scan { range: usize },
    Digest { worker: usize },
    Seal { worker: usize },
    Load { index: usize },
    Feed { index: usize },
    Apply { index: usize },
    Switch,
    Abandon,
    /// Something that is asked, or that the lanes don't show.
    Other,
}

impl Deed {
    pub fn of(alloc: Global, command: &Command, lanes: &Lanes) -> Result<Deed, Failure> {
        Ok(match command {
            Command::Row { .. } => Deed::Row,
            Command::Begin { label }
            | Command::Insert { label, .. }
            | Command::Update { label, .. }
            | Command::Delete { label, .. }
            | Command::Undo { label }
            | Command::Commit { label } => Deed::of_txn(command, lanes, label),
            Command::Start(start) => Deed::of_start(alloc, start)?,
            Command::Scan { range, .. } => Deed::Scan { range: *range },
            Command::Digest { worker } => Deed::Digest { worker: *worker },
            Command::Seal { worker } => Deed::Seal { worker: *worker },
            Command::Load { index } => Deed::Load { index: *index },
            Command::Feed { index, .. } => Deed::Feed { index: *index },
            Command::Apply { index, .. } => Deed::Apply { index: *index },
            Command::Switch => Deed::Switch,
            Command::Abandon => Deed::Abandon,
            Command::Get { .. }
            | Command::Spools { .. }
            | Command::Fence
            | Command::Side { .. }
            | Command::Pairs { .. }
            | Command::Rest { .. } => Deed::Other,
        })
    }

    /// What a command of a transaction is to do. A label that no record has a transaction begin for names none.
    fn of_txn(command: &Command, lanes: &Lanes, label: &Label) -> Deed {
        let Some(txn) = lanes.txn(label.as_str()) else {
            return Deed::Other;
        };
        match command {
            Command::Begin { .. } => Deed::Begin { txn },
            Command::Insert { .. } => Deed::Write { txn, cells: 2 },
            Command::Update { .. } | Command::Delete { .. } => Deed::Write { txn, cells: 3 },
            Command::Undo { .. } => Deed::Undo { txn },
            Command::Commit { .. } => Deed::Commit { txn },
            _ => Deed::Other,
        }
    }

    fn of_start(alloc: Global, start: &Start) -> Result<Deed, Failure> {
        let dealing = match &start.dealing {
            Dealing::Ends(ends) => Dealing::Ends(ends.clone()?),
            Dealing::Even(ranges) => Dealing::Even(*ranges),
        };
        Ok(Deed::Start {
            dealing,
            indexes: start.specs.len(),
        })
    }
}

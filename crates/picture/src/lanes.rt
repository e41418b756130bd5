use crate::failure::Failure;
use crate::timeline_svg::{Lane, LaneKind};
use crate::txn_lane::TxnLane;
use builder_core::{Dealing, INDEXES_MAX};
use scan_range::RANGES_MAX;
use script::{Command, NumberedCommand, Start};
use std::alloc::Global;

/// Which lanes the picture of a script has, from the left: a lane for each range of pages, one for the rows that are put in by
/// transactions of their own, one for each label, one for the workers, and one for each index of a build.
#[derive(Drop)]
pub struct Lanes {
    pub ranges: usize,
    pub txns: Vec<TxnLane>,
    pub indexes: usize,
}

impl Lanes {
    /// The lanes that these commands want.
    pub fn of(alloc: Global, commands: &[NumberedCommand]) -> Result<Lanes, Failure> {
        let mut lanes = Lanes {
            ranges: 0,
            txns: Vec::new(alloc),
            indexes: 0,
        };
        lanes.want_all(alloc, commands)?;
        Ok(lanes)
    }

    fn want_all(&mut self, alloc: Global, commands: &[NumberedCommand]) -> Result<(), Failure> {
        for command in commands {
            match &command.command {
                Command::Begin { label } => self.want_label(alloc, label.as_str())?,
                Command::Start(start) => self.want_build(start),
                _ => (),
            }
        }
        Ok(())
    }

    fn want_label(&mut self, alloc: Global, label: &str) -> Result<(), Failure> {
        if self.txn(label).is_none() {
            self.txns.push(TxnLane::new(alloc, label)?)?;
        }
        Ok(())
    }

    fn want_build(&mut self, start: &Start) {
        let ranges = match &start.dealing {
            Dealing::Ends(ends) => ends.len(),
            Dealing::Even(ranges) => *ranges,
        };
        if ranges <= RANGES_MAX && start.specs.len() <= INDEXES_MAX {
            self.ranges = self.ranges.max(ranges);
            self.indexes = self.indexes.max(start.specs.len());
        }
    }

    /// The place of a label among the labels.
    pub fn txn(&self, label: &str) -> Option<usize> {
        self.txns.iter().position(|txn| txn.label.as_str() == label)
    }

    /// The lane of the rows that are put in by transactions of their own.
    pub fn table(&self) -> usize {
        self.ranges
    }

    /// The lane of the label of that place.
    pub fn of_txn(&self, txn: usize) -> usize {
        self.table().saturating_add(1).saturating_add(txn)
    }

    /// The lane of the workers.
    pub fn workers(&self) -> usize {
        self.of_txn(self.txns.len())
    }

    /// The lane of an index of a build.
    pub fn of_index(&self, index: usize) -> usize {
        self.workers().saturating_add(1).saturating_add(index)
    }

    /// How many there are.
    pub fn len(&self) -> usize {
        self.of_index(self.indexes)
    }

    /// The lanes with their names.
    pub fn named(&self, alloc: Global) -> Result<Vec<Lane>, Failure> {
        let mut named = Vec::new(alloc);
        for range in 0..self.ranges {
            named.push(Lane {
                kind: LaneKind::Range,
                name: format!(in alloc; "range {range}")?,
            })?;
        }
        named.push(Lane {
            kind: LaneKind::Table,
            name: String::from_str(alloc, "row")?,
        })?;
        for txn in &self.txns {
            let label = txn.label.as_str();
            named.push(Lane {
                kind: LaneKind::Transaction,
                name: format!(in alloc; "transaction {label}")?,
            })?;
        }
        self.name_build(alloc, &mut named)?;
        Ok(named)
    }

    fn name_build(&self, alloc: Global, named: &mut Vec<Lane>) -> Result<(), Failure> {
        named.push(Lane {
            kind: LaneKind::Workers,
            name: String::from_str(alloc, "workers")?,
        })?;
        for index in 0..self.indexes {
            named.push(Lane {
                kind: LaneKind::Index,
                name: format!(in alloc; "index {index}, side-file")?,
            })?;
        }
        Ok(())
    }
}

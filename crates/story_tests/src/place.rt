//! Where in a build's spools a fault comes.

use keybytes::Fault;
use prefix_spool::Coming;
use script::Command;

/// What may come to each of four spools.
pub type Faults = [Coming; 4];

/// Nothing comes.
pub const NO_FAULT: Faults = [
    Coming::Nothing,
    Coming::Nothing,
    Coming::Nothing,
    Coming::Nothing,
];

/// One place where a spool can fail.
#[derive(Drop)]
pub struct Place {
    /// That of worker w and index i has the number w times the indexes, plus i.
    pub spool: usize,
    /// How many indexes the build has.
    pub indexes: usize,
    /// Whether a push is refused; else a read is.
    pub is_push: bool,
    /// How many of them go well before it.
    pub before: u32,
    /// Whether a build comes so far.
    pub is_reached: bool,
}

impl Place {
    /// The place of that number: in one spool after another at each of so many pushes, and then at each read. Behind those
    /// of either kind is one that isn't reached.
    pub fn numbered(number: usize, indexes: usize, pairs: u32) -> Place {
        let number = number.min(10_000) as u32;
        let each = pairs.saturating_add(1);
        Place {
            spool: (number / each / 2) as usize,
            indexes,
            is_push: number / each % 2 == 0,
            before: number % each,
            is_reached: number % each < pairs,
        }
    }

    /// What a step answers that comes upon it.
    pub fn fault(&self) -> Fault {
        if self.is_push {
            Fault::NoPage
        } else {
            Fault::Memory
        }
    }

    /// What comes to the spools.
    pub fn faults(&self) -> Faults {
        let mut faults = NO_FAULT;
        faults[self.spool.min(3)] = if self.is_push {
            Coming::FullBehind(self.before)
        } else {
            Coming::MemoryBehind(self.before)
        };
        faults
    }

    /// Which step may come upon it: a digest or a seal of the spool's worker, or the load of the spool's index.
    pub fn is_met_by(&self, command: &Command) -> bool {
        let indexes = self.indexes.max(1);
        match command {
            Command::Digest { worker } | Command::Seal { worker } => {
                self.is_push && *worker == self.spool / indexes
            }
            Command::Load { index } => !self.is_push && *index == self.spool % indexes,
            _ => false,
        }
    }
}

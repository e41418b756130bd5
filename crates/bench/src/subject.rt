//! What is measured by turns: a core, and all that is asked of it.
ghost use Rattle.std.specs.Prelude.{All, OnOk};
ghost use Rattle.bench.specs.Verdicts.{IsReady};

use crate::build::Work;
use crate::failure::Failure;
use crate::hand::Desk;
use crate::options::Options;
use btree::Tree;
use builder_core::{Core, Event, Reply, TableRings};
use heap_log::Outcome;
use keybytes::Fault;
use prefix_spool::{CountedSpool, SpoolOfKind};
use std::alloc::Global;

/// A table with the build of its indexes.
pub trait Subject: Desk {
    /// Starts the build over new spools.
    fn start(&mut self, alloc: Global, options: &Options) -> Result<u64, Failure>;

    /// The pairs of the first index.
    fn tree(&self) -> Result<&Tree, Fault>;
}

impl<T: TableRings> Desk for Core<CountedSpool<SpoolOfKind>, T> {
    fn answer(&mut self, step: &'static str, event: Event) -> Result<u64, Failure> {
        let reply = self.step(event);
        number_of(step, &reply)
    }
}

impl<T: TableRings> Subject for Core<CountedSpool<SpoolOfKind>, T> {
    fn start(&mut self, alloc: Global, options: &Options) -> Result<u64, Failure> {
        let Work { plan, spools } = Work::new(alloc, self.live().heap().schema(), options)?;
        self.exchange_spools(spools);
        self.answer("the start of the build", Event::Start { plan })
    }

    fn tree(&self) -> Result<&Tree, Fault> {
        match self.ready(0) {
            Ok(index) => Ok(index.tree()),
            Err(fault) => Err(fault),
        }
    }
}

/// The number that a reply tells.
fn number_of(step: &'static str, reply: &Reply) -> Result<u64, Failure> {
    match reply {
        Reply::Begun { txn } => Ok(*txn),
        Reply::Written { rid, .. } => Ok(u64::from(rid.page)),
        Reply::Fed { entries } | Reply::Applied { entries } => Ok(*entries as u64),
        Reply::Switched { verdicts, .. } => are_ready(verdicts.as_slice()),
        Reply::Refused { fault } => Err(Failure::Refused(step, *fault)),
        _ => Ok(0),
    }
}

/// How many indexes are ready, if all are.
pub fn are_ready(verdicts: &[Outcome]) -> Result<u64, Failure>
    ensures { OnOk result (All IsReady verdicts.now) }
{
    for index in 0..verdicts.len() {
        match &verdicts[index] {
            Outcome::Ready(_) => {}
            Outcome::Shared { .. } => return Err(Failure::Shared(index)),
        }
    }
    Ok(verdicts.len() as u64)
}

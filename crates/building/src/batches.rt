//! All entries that wait for the indexes of a build, applied as batches.
ghost use Rattle.std.specs.Prelude.{◌≡◌, IfOk, IfErr};
ghost use Rattle.building.specs.Batches.{BatchesStopped, CanApplyBatches, HasAppliedBatches};

use crate::batch_turns::apply_all;
use crate::beside::Building;
use catch_up::Pace;
use keybytes::Fault;
use page_workers::TableRings;
use run_spool::Spool;
use std::alloc::Global;
use std::thread::Threads;

impl<S: Spool, T: TableRings> Building<S, T> {
    /// Looks into the ring of each index of the build, and applies all entries found there: each index's as one batch, the indexes side by side, each in
    /// a thread where there are processors for it. Answers how many these are together. Each batch tells `pace` of itself, from its thread. Want of memory
    /// spoils the build, and of its indexes nothing is known then; [`Fault::Memory`] is also the answer where more would be applied than `usize` counts.
    pub fn apply_batches<R: Threads + Sync, P: Pace + Sync>(
        &mut self,
        rt: &R,
        alloc: Global,
        pace: &P,
    ) -> Result<usize, Fault>
        requires { CanApplyBatches self.old }
        ensures applied { IfOk result (λ count. HasAppliedBatches self.old count self.new) }
        ensures stopped { IfErr result (λ fault. BatchesStopped self.old fault self.new) }
        ensures memory { IfErr result (λ fault. fault ≡ Fault.Memory) }
    {
        let Some(work) = &mut self.work else {
            unreachable!()
        };
        let ends = &mut self.side_ends;
        let count = match apply_all(rt, alloc, pace, &mut work.indexes, ends) {
            Ok(count) => count,
            Err(refused) => {
                work.spoiled = Some(refused);
                return Err(refused);
            }
        };
        Ok(count)
    }
}

//! The turns of the workers of the build that runs, and their looks into their rings.
ghost use Rattle.std.specs.Prelude.{◌≡◌, ◌<◌, length, IfOk, IfErr, IsSome, OnOk};
ghost use Rattle.building.specs.Turns.{WorkerDid, WorkerLooked, WorkerStopped, spoiled_for};
ghost use Rattle.run_spool.specs.Spools.{IsFullIntact};

use crate::Building;
use crate::work::Work;
use keybytes::Fault;
use page_workers::{TableRings, Turn};
use run_spool::Spool;

impl<S: Spool, T: TableRings> Building<S, T> {
    /// Lets a worker look into its ring, and answers how many copies it has seen there: a digest or a seal takes what was seen. It needs no
    /// lock; the table may put more at any time.
    pub fn look(&mut self, worker: usize) -> usize
        requires { worker < length self.old.workers }
        ensures { WorkerLooked worker self.old result self.new }
    {
        self.workers[worker].look()
    }

    /// Lets a worker take the next copy that it has seen. Want of memory or of a page spoils the build.
    pub fn digest(&mut self, worker: usize) -> Result<usize, Fault>
        requires there { worker < length self.old.workers }
        requires runs { IsSome self.old.work }
        ensures did { IfOk result (λ images. WorkerDid Turn.Digest worker self.old images self.new) }
        ensures stopped { IfErr result (λ fault.
            WorkerStopped (IsFullIntact S.is_full S.is_intact S.runs) S.runs S.open_run S.stake Turn.Digest worker self.old fault self.new) }
    {
        self.take(worker, Turn::Digest)
    }

    /// Lets a worker take all copies that it has seen, and close its runs. Want of memory or of a page spoils the build.
    pub fn seal(&mut self, worker: usize) -> Result<usize, Fault>
        requires there { worker < length self.old.workers }
        requires runs { IsSome self.old.work }
        ensures did { IfOk result (λ images. WorkerDid Turn.Seal worker self.old images self.new) }
        ensures stopped { IfErr result (λ fault.
            WorkerStopped (IsFullIntact S.is_full S.is_intact S.runs) S.runs S.open_run S.stake Turn.Seal worker self.old fault self.new) }
    {
        self.take(worker, Turn::Seal)
    }

    /// Lets a worker do what that turn asks, as [`Building::digest`] or [`Building::seal`].
    pub fn take(&mut self, worker: usize, turn: Turn) -> Result<usize, Fault>
        requires there { worker < length self.old.workers }
        requires runs { IsSome self.old.work }
        ensures did { IfOk result (λ images. WorkerDid turn worker self.old images self.new) }
        ensures stopped { IfErr result (λ fault.
            WorkerStopped (IsFullIntact S.is_full S.is_intact S.runs) S.runs S.open_run S.stake turn worker self.old fault self.new) }
    {
        let Some(work) = &mut self.work else {
            unreachable!()
        };
        let answer = self.workers[worker].take(turn);
        note_fault(work, &answer);
        answer
    }
}

/// A refused turn spoils the build; one that is spoiled already stays so for the same fault.
fn note_fault(work: &mut Work, answer: &Result<usize, Fault>)
    ensures fine { OnOk answer.now (work.new ≡ work.old) }
    ensures spoiled { IfErr answer.now (λ fault. work.new ≡ spoiled_for fault work.old) }
{
    if let Err(fault) = answer {
        work.spoiled = work.spoiled.or(Some(*fault));
    }
}

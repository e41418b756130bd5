//! A worker's turns.
ghost use Rattle.std.specs.Prelude.{IfOk, IfErr};
ghost use Rattle.run_spool.specs.Spools.{IsFullIntact};
ghost use Rattle.page_workers.specs.Turns.{AnswersTurn, HasDone, HasLooked, IsStopped};

use super::Worker;
use crate::Turn;
use keybytes::Fault;
use run_maker::{RunSort, StdSort};
use run_spool::Spool;

impl<S: Spool> Worker<S> {
    /// Looks into its ring, and answers how many copies it has seen there. It needs no lock: a worker in a thread of its own looks before its
    /// digests and seals, which take what was seen.
    pub fn look(&mut self) -> usize
        ensures { HasLooked self.old result self.new }
    {
        self.intake.look()
    }

    /// Takes the next copy that it has seen, makes its pairs, spools those that fill a run, and answers 1. The answer is 0 where it has seen
    /// none, and where the copy is of another build or of other columns, and so is dropped; and where its spools went to the indexes, and it takes
    /// nothing.
    pub fn digest(&mut self) -> Result<usize, Fault>
        ensures { AnswersTurn (IsFullIntact S.is_full S.is_intact S.runs) S.runs S.open_run S.stake Turn.Digest self.old result self.new }
    {
        self.take(Turn::Digest)
    }

    /// As [`Worker::digest`], with runs sorted by the sort that is lent.
    pub fn digest_with<Q: RunSort>(&mut self, sort: &mut Q) -> Result<usize, Fault>
        ensures { AnswersTurn (IsFullIntact S.is_full S.is_intact S.runs) S.runs S.open_run S.stake Turn.Digest self.old result self.new }
    {
        self.take_with(Turn::Digest, sort)
    }

    /// Takes all copies that it has seen, spools their pairs, closes the run of each index, and answers how many copies of its build
    /// and of its maker's columns there were. Where its spools went to the indexes, it takes nothing.
    pub fn seal(&mut self) -> Result<usize, Fault>
        ensures { AnswersTurn (IsFullIntact S.is_full S.is_intact S.runs) S.runs S.open_run S.stake Turn.Seal self.old result self.new }
    {
        self.take(Turn::Seal)
    }

    /// As [`Worker::seal`], with runs sorted by the sort that is lent.
    pub fn seal_with<Q: RunSort>(&mut self, sort: &mut Q) -> Result<usize, Fault>
        ensures { AnswersTurn (IsFullIntact S.is_full S.is_intact S.runs) S.runs S.open_run S.stake Turn.Seal self.old result self.new }
    {
        self.take_with(Turn::Seal, sort)
    }

    /// Does what that turn asks, as [`Worker::digest`] or [`Worker::seal`].
    pub fn take(&mut self, turn: Turn) -> Result<usize, Fault>
        ensures done { IfOk result (λ images. HasDone turn self.old images self.new) }
        ensures stopped { IfErr result (λ fault. IsStopped (IsFullIntact S.is_full S.is_intact S.runs) S.runs S.open_run S.stake turn self.old fault self.new) }
    {
        self.take_with(turn, &mut StdSort)
    }

    /// The same, with runs sorted by the sort that is lent.
    pub fn take_with<Q: RunSort>(&mut self, turn: Turn, sort: &mut Q) -> Result<usize, Fault>
        ensures done { IfOk result (λ images. HasDone turn self.old images self.new) }
        ensures stopped { IfErr result (λ fault. IsStopped (IsFullIntact S.is_full S.is_intact S.runs) S.runs S.open_run S.stake turn self.old fault self.new) }
    {
        if let Some(fault) = self.fault {
            return Err(fault);
        }
        if self.handed {
            self.intake.mark(turn);
            return Ok(0);
        }
        match self
            .intake
            .take(turn, &mut self.maker, &mut self.spools, sort)
        {
            Ok(images) => {
                self.maker.laws();
                Ok(images)
            }
            Err(fault) => {
                self.fault = Some(fault);
                Err(fault)
            }
        }
    }
}

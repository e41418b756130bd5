//! The events of a core as calls of their own: each answers what the reply to its event tells.
ghost use Rattle.std.specs.Prelude.{◌≡◌, IfOk, IfErr};
ghost use Rattle.build_events.specs.BuildSteps.{OnBuild};
ghost use Rattle.build_events.specs.Steps.{AnswersBy};
ghost use Rattle.build_events.specs.Verdicts.{HaveSharedKeys};
ghost use Rattle.build_events.specs.declared.event.Event.{Event};
ghost use Rattle.build_events.specs.declared.reply.Reply.{Reply};
ghost use Rattle.live_lemmas.specs.FullSpools.{NoPageOnlyIfFull};
ghost use Rattle.page_workers.specs.declared.turn.Turn.{Turn};
ghost use Rattle.run_spool.specs.Spools.{IsFullIntact};

use crate::{Core, Plan, TableRings};
use heap_log::Verdicts;
use heap_table::{PageImage, Undone};
use keybytes::{Fault, Rid, Row};
use run_spool::Spool;

impl<S: Spool, T: TableRings> Core<S, T> {
    /// The next transaction begins; answered with its number. [`Fault::Fenced`], [`Fault::TooManyTxns`].
    pub fn begin(&mut self) -> Result<u64, Fault>
        ensures { AnswersBy Reply.Begun self.old Event.Begin result self.new }
    {
        let txn = self.live.begin()?;
        Ok(txn)
    }

    /// The transaction inserts a row, as [`Live::insert`].
    pub fn insert(&mut self, txn: u64, row: Row) -> Result<(usize, Rid), Fault>
        ensures { AnswersBy (λ w. Reply.Written w.0 w.1) self.old (Event.Insert txn row) result self.new }
    {
        let (number, rid) = self.live.insert(txn, row)?;
        Ok((number, rid))
    }

    /// The same of a row that it is lent: it is copied only once nothing refuses it.
    pub(crate) fn insert_lent(&mut self, txn: u64, row: &Row) -> Result<(usize, Rid), Fault>
        ensures { AnswersBy (λ w. Reply.Written w.0 w.1) self.old (Event.Insert txn row.now) result self.new }
    {
        let place = self.live.check_place(txn, row)?;
        let (number, rid) = self.live.insert_free(txn, place, row.clone()?)?;
        Ok((number, rid))
    }

    /// The transaction gives a RID another row, as [`Live::update`].
    pub fn update(&mut self, txn: u64, rid: Rid, row: Row) -> Result<(usize, Rid), Fault>
        ensures { AnswersBy (λ w. Reply.Written w.0 w.1) self.old (Event.Update txn rid row) result self.new }
    {
        let (number, rid) = self.live.update(txn, rid, row)?;
        Ok((number, rid))
    }

    /// The same of a row that it is lent.
    pub(crate) fn update_lent(
        &mut self,
        txn: u64,
        rid: Rid,
        row: &Row,
    ) -> Result<(usize, Rid), Fault>
        ensures { AnswersBy (λ w. Reply.Written w.0 w.1) self.old (Event.Update txn rid row.now) result self.new }
    {
        self.live.check_update(txn, rid, row)?;
        let (number, rid) = self.live.update_free(txn, rid, row.clone()?)?;
        Ok((number, rid))
    }

    /// The transaction takes the row at a RID away, as [`Live::delete`].
    pub fn delete(&mut self, txn: u64, rid: Rid) -> Result<(usize, Rid), Fault>
        ensures { AnswersBy (λ w. Reply.Written w.0 w.1) self.old (Event.Delete txn rid) result self.new }
    {
        let (number, rid) = self.live.delete(txn, rid)?;
        Ok((number, rid))
    }

    /// The transaction's newest standing write is undone, as [`Live::undo`].
    pub fn undo(&mut self, txn: u64) -> Result<Undone, Fault>
        ensures { AnswersBy (λ undone. Reply.Undone undone.number undone.left) self.old (Event.Undo txn) result self.new }
    {
        let Undone { number, left } = self.live.undo(txn)?;
        Ok(Undone { number, left })
    }

    /// The transaction ends, and keeps its writes; answered with the record's number.
    pub fn commit(&mut self, txn: u64) -> Result<usize, Fault>
        ensures { AnswersBy Reply.Committed self.old (Event.Commit txn) result self.new }
    {
        let number = self.live.commit(txn)?;
        Ok(number)
    }

    /// A build of the plan's indexes starts over the spools that are left, as [`Live::start`]; answered with the number of pages that it reads.
    pub fn start(&mut self, plan: &Plan) -> Result<u32, Fault>
        ensures { AnswersBy Reply.Started self.old (Event.Start plan.now) result self.new }
    {
        let pages = self.live.start(plan, &mut self.building)?;
        Ok(pages)
    }

    /// Copies the lowest page of the range that is left for the worker; answered with the page's number. [`Fault::NoBuild`],
    /// [`Fault::BadCount`], the fault of a spoiled build, [`Fault::RangeDone`], [`Fault::RingFull`].
    pub fn scan(&mut self, range: usize, worker: usize) -> Result<u32, Fault>
        ensures { AnswersBy Reply.Scanned self.old (Event.Scan range worker) result self.new }
    {
        self.live.check_scan(range, worker, &mut self.building)?;
        let image = PageImage::new(self.live.allocator())?;
        match self.live.scan_step(range, worker, image) {
            Ok(page) => Ok(page),
            Err(_) => unreachable!(),
        }
    }

    /// The worker takes the next copy that waits, makes its pairs, and spools those that fill a run; answered with 1, or 0 where none waits. Want of memory or
    /// of a page spoils the build. [`Fault::NoBuild`], [`Fault::BadCount`], the fault of a spoiled build, [`Fault::NoPage`].
    pub fn digest(&mut self, worker: usize) -> Result<usize, Fault>
        ensures answers { AnswersBy Reply.Digested self.old (Event.Digest worker) result self.new }
        ensures full { IfErr result (NoPageOnlyIfFull (IsFullIntact S.is_full S.is_intact S.runs) S.runs S.open_run S.stake Turn.Digest self.old worker) }
    {
        self.live.check_worker(worker, &self.building)?;
        let images = self.live.digest(worker, &mut self.building)?;
        Ok(images)
    }

    /// The worker takes all copies that wait, and closes its runs; answered with their number. Refused as [`Core::digest`].
    pub fn seal(&mut self, worker: usize) -> Result<usize, Fault>
        ensures answers { AnswersBy Reply.Sealed self.old (Event.Seal worker) result self.new }
        ensures full { IfErr result (NoPageOnlyIfFull (IsFullIntact S.is_full S.is_intact S.runs) S.runs S.open_run S.stake Turn.Seal self.old worker) }
    {
        self.live.check_worker(worker, &self.building)?;
        let images = self.live.seal(worker, &mut self.building)?;
        Ok(images)
    }

    /// Puts the pairs of an index in order; answered with their number, 0 where they are in order already. Want of memory spoils
    /// the build. [`Fault::NoBuild`], [`Fault::BadCount`], the fault of a spoiled build, [`Fault::NotScanned`], [`Fault::NotSealed`].
    pub fn load(&mut self, index: usize) -> Result<usize, Fault>
        ensures { AnswersBy Reply.Loaded self.old (Event.Load index) result self.new }
    {
        self.live.check_load(index, &mut self.building)?;
        let pairs = self.live.load(index, &mut self.building)?;
        Ok(pairs)
    }

    /// Moves at most so many of the next entries of an index's side-file into its ring; answered with their number.
    /// [`Fault::NoBuild`], [`Fault::BadCount`]. Takes no memory.
    pub fn feed(&mut self, index: usize, most: usize) -> Result<usize, Fault>
        ensures { AnswersBy Reply.Fed self.old (Event.Feed index most) result self.new }
    {
        let entries = self.live.feed_beside(index, most, &mut self.building)?;
        Ok(entries)
    }

    /// Applies at most so many of the entries that wait to an index; answered with their number. Those before a want of memory
    /// stay applied. [`Fault::NoBuild`], [`Fault::BadCount`], the fault of a spoiled build, [`Fault::NotLoaded`].
    pub fn apply(&mut self, index: usize, most: usize) -> Result<usize, Fault>
        ensures { AnswersBy Reply.Applied self.old (Event.Apply index most) result self.new }
    {
        self.live.check_apply(index, &self.building)?;
        let entries = self.live.apply(index, most, &mut self.building)?;
        Ok(entries)
    }

    /// Lets no transaction begin until the build has decided or is given up. [`Fault::NoBuild`]. Takes no memory.
    pub fn fence(&mut self) -> Result<(), Fault>
        ensures { AnswersBy (λ _. Reply.FenceSet) self.old Event.Fence result self.new }
    {
        self.live.fence()?;
        Ok(())
    }

    /// Makes the indexes of the build ready, as [`Live::switch_in`]; answered with the number of the log record, and what became of
    /// each index.
    pub fn switch_in(&mut self) -> Result<(usize, Verdicts), Fault>
        ensures answers { AnswersBy (λ told. Reply.Switched told.0 told.1) self.old Event.Switch result self.new }
        ensures keys { IfOk result (λ told. OnBuild self.old.live.build (λ b. HaveSharedKeys b.specs told.1)) }
    {
        let switched = self.live.switch_in(&mut self.building)?;
        Ok((switched.number, switched.verdicts))
    }

    /// Gives the build up, and ends its spools. [`Fault::NoBuild`]. Takes no memory.
    pub fn abandon(&mut self) -> Result<(), Fault>
        ensures { AnswersBy (λ _. Reply.Abandoned) self.old Event.Abandon result self.new }
    {
        self.live.abandon()?;
        self.building.give_up();
        Ok(())
    }
}

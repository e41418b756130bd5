//! The steps of a build in which its workers have a part, with both ends of their rings at hand.
ghost use Rattle.std.specs.Prelude.{ℕ, ◌≡◌, ◌++◌, ◌<◌, ◌≤◌, ◌+◌, All, length, slice_get, true, false, Some, None, IsSome, IfSome, IfOk, IfErr, OnOk, OnErr, MatchOption, MatchResult};
ghost use Rattle.side_file.specs.Ends.{PutEnd};
ghost use Rattle.building.specs.Keeping.{KeepsLaws};
ghost use Rattle.page_workers.specs.declared.copied.Copied.{Copied};
ghost use Rattle.live_lemmas.specs.Builds.{core_state, cause_of, put_refusal, HasLookedAtRings, SeesRing, IsLoading, MayWork, MayLoad, StandsBeside};
ghost use Rattle.live_lemmas.specs.Switching.{early_cause, HandsOver, HaveAll, IsKeptOut, IsLowestUnsealed, IsOnlyLookedAt, IsPartOf};
ghost use Rattle.live_lemmas.specs.Putting.{PagesAreLooked};
ghost use Rattle.building.specs.Working.{CanLoad, HasHandedOver};
ghost use Rattle.live_lemmas.specs.Turns.{HasTurn, IsTurnRefused};
ghost use Rattle.building.specs.Rings.{all_sent, AreSealed, FirstAreSealed, HasSeenAll, IsUnsealed};
ghost use Rattle.live_lemmas.specs.Rings.{PagesFollow};
ghost use Rattle.build_events.specs.BuildSteps.{Loads};
ghost use Rattle.build_events.specs.Steps.{spoiled_by};
ghost use Rattle.build_events.specs.Workers.{index_at};
ghost use Rattle.build_events.specs.declared.event.Event.{Event};
ghost use Rattle.run_spool.specs.Spools.{IsFullIntact};

use crate::{Building, Live, TableRings};
use keybytes::Fault;
use page_workers::{RING_IMAGES, Turn};
use run_spool::Spool;

impl<T: TableRings> Live<T> {
    /// How many copies wait for a worker.
    fn look<S: Spool>(&mut self, worker: usize, building: &mut Building<S, T>) -> usize
        requires { worker < length building.old.workers }
        ensures looked { HasLookedAtRings self.old building.old self.new building.new }
        ensures sees { SeesRing worker result self.new building.new }
        ensures pages { length self.new.pages ≡ 16 }
        ensures put { PagesFollow self.new.state.heap.schema self.new.state.heap.log self.new.state.builds self.new.state.build (all_sent self.new.pages) }
    {
        building.waiting(&mut self.pages, worker)
    }

    /// The lowest worker of what stands beside the table for which a copy waits in its ring, or whose run is open. No index is loaded before
    /// none is left, and no build switched in. That worker has then seen all that its ring was sent, so that it can seal it without the table. Takes no memory.
    pub fn unsealed<S: Spool>(&mut self, building: &mut Building<S, T>) -> Option<usize>
        ensures looked { HasLookedAtRings self.old building.old self.new building.new }
        ensures unsealed { MatchOption result (HaveAll self.new building.new) (IsLowestUnsealed self.new building.new) }
        ensures seen { IfSome result (λ worker. HasSeenAll worker (all_sent self.new.pages) building.new.workers) }
        ensures laws { All (KeepsLaws T.pages) building.new.workers }
        ensures put { PagesFollow self.new.state.heap.schema self.new.state.heap.log self.new.state.builds self.new.state.build (all_sent self.new.pages) }
        ensures pages { length self.new.pages ≡ 16 }
    {
        building.first_unsealed(&mut self.pages)
    }

    /// Why a page of the range would not be copied for the worker, with both ends of the worker's ring at hand. Takes no memory.
    pub fn check_scan<S: Spool>(
        &mut self,
        range: usize,
        worker: usize,
        building: &mut Building<S, T>,
    ) -> Result<(), Fault>
        requires { StandsBeside self.old building.old }
        ensures accepted { OnOk result (cause_of self.old building.old (Event.Scan range worker) ≡ None) }
        ensures refused { IfErr result (λ fault. cause_of self.old building.old (Event.Scan range worker) ≡ Some fault) }
        ensures state { core_state self.new building.new ≡ core_state self.old building.old }
        ensures works { StandsBeside self.new building.new }
        ensures looked { HasLookedAtRings self.old building.old self.new building.new }
        ensures room { OnOk result (put_refusal self.new range worker ≡ None) }
    {
        let (Some(build), Some(work)) = (self.build(), building.work()) else {
            return Err(Fault::NoBuild);
        };
        if range >= build.ranges() || worker >= build.workers() {
            return Err(Fault::BadCount);
        }
        work.check()?;
        if build.next_page(range).is_none() {
            return Err(Fault::RangeDone);
        }
        if self.look(worker, building) >= RING_IMAGES {
            return Err(Fault::RingFull);
        }
        Ok(())
    }

    /// Why the worker would make no pairs. Takes no memory.
    pub fn check_worker<S: Spool>(
        &self,
        worker: usize,
        building: &Building<S, T>,
    ) -> Result<(), Fault>
        requires { StandsBeside self.now building.now }
        ensures seal { MatchResult result
            (λ _. cause_of self.now building.now (Event.Seal worker) ≡ None)
            (λ fault. cause_of self.now building.now (Event.Seal worker) ≡ Some fault) }
        ensures digest { MatchResult result
            (λ _. cause_of self.now building.now (Event.Digest worker) ≡ None)
            (λ fault. cause_of self.now building.now (Event.Digest worker) ≡ Some fault) }
        ensures runs { OnOk result (MayWork self.now building.now worker) }
    {
        let (Some(build), Some(work)) = (self.build(), building.work()) else {
            return Err(Fault::NoBuild);
        };
        if worker >= build.workers() {
            return Err(Fault::BadCount);
        }
        work.check()
    }

    /// Lets the worker take the next copy, if one waits, and answers how many it took. Want of memory or of a page
    /// spoils the build.
    pub fn digest<S: Spool>(
        &mut self,
        worker: usize,
        building: &mut Building<S, T>,
    ) -> Result<usize, Fault>
        requires works { StandsBeside self.old building.old }
        requires runs { MayWork self.old building.old worker }
        ensures done { IfOk result (λ images. HasTurn Turn.Digest worker (core_state self.old building.old) images (core_state self.new building.new)) }
        ensures refused { IfErr result (λ fault.
            IsTurnRefused (IsFullIntact S.is_full S.is_intact S.runs) S.runs S.open_run S.stake Turn.Digest worker (core_state self.old building.old) fault (core_state self.new building.new)) }
        ensures works { StandsBeside self.new building.new }
        ensures ends { PagesAreLooked self.old self.new }
    {
        self.take(worker, Turn::Digest, building)
    }

    /// Lets the worker take all copies that wait and close its runs, and answers how many it took. Want of
    /// memory or of a page spoils the build.
    pub fn seal<S: Spool>(
        &mut self,
        worker: usize,
        building: &mut Building<S, T>,
    ) -> Result<usize, Fault>
        requires works { StandsBeside self.old building.old }
        requires runs { MayWork self.old building.old worker }
        ensures done { IfOk result (λ images. HasTurn Turn.Seal worker (core_state self.old building.old) images (core_state self.new building.new)) }
        ensures refused { IfErr result (λ fault.
            IsTurnRefused (IsFullIntact S.is_full S.is_intact S.runs) S.runs S.open_run S.stake Turn.Seal worker (core_state self.old building.old) fault (core_state self.new building.new)) }
        ensures works { StandsBeside self.new building.new }
        ensures ends { PagesAreLooked self.old self.new }
    {
        self.take(worker, Turn::Seal, building)
    }

    /// Lets the worker do what that turn asks, with both ends of its ring at hand.
    fn take<S: Spool>(
        &mut self,
        worker: usize,
        turn: Turn,
        building: &mut Building<S, T>,
    ) -> Result<usize, Fault>
        requires works { StandsBeside self.old building.old }
        requires runs { MayWork self.old building.old worker }
        ensures done { IfOk result (λ images. HasTurn turn worker (core_state self.old building.old) images (core_state self.new building.new)) }
        ensures refused { IfErr result (λ fault.
            IsTurnRefused (IsFullIntact S.is_full S.is_intact S.runs) S.runs S.open_run S.stake turn worker (core_state self.old building.old) fault (core_state self.new building.new)) }
        ensures works { StandsBeside self.new building.new }
        ensures ends { PagesAreLooked self.old self.new }
    {
        self.look(worker, building);
        building.laws();
        building.take(worker, turn)
    }

    /// Why the pairs of the index would not be put in order, with both ends of the rings at hand. Takes no memory.
    pub fn check_load<S: Spool>(
        &mut self,
        index: usize,
        building: &mut Building<S, T>,
    ) -> Result<(), Fault>
        requires { StandsBeside self.old building.old }
        ensures accepted { OnOk result (cause_of self.old building.old (Event.Load index) ≡ None) }
        ensures refused { IfErr result (λ fault. cause_of self.old building.old (Event.Load index) ≡ Some fault) }
        ensures state { core_state self.new building.new ≡ core_state self.old building.old }
        ensures works { StandsBeside self.new building.new }
        ensures looked { HasLookedAtRings self.old building.old self.new building.new }
        ensures runs { OnOk result (MayLoad self.new building.new index) }
    {
        let (Some(build), Some(work)) = (self.build(), building.work()) else {
            return Err(Fault::NoBuild);
        };
        if index >= build.indexes() {
            return Err(Fault::BadCount);
        }
        work.check()?;
        if let Some(range) = build.first_open() {
            return Err(Fault::NotScanned(range));
        }
        match self.unsealed(building) {
            Some(worker) => Err(Fault::NotSealed(worker)),
            None => Ok(()),
        }
    }

    /// Ends the scans of a build, in one look at what stands beside the table, from which it may have been kept apart: once all pages were
    /// copied, and the workers took all and closed their runs, they hand their spools over, and each index can be loaded without the table.
    /// After such loads another call tells that what stands beside the table goes with its build again, as `feed_beside`, `check_apply` and
    /// `apply` want it; that call only looks at the rings.
    /// [`Fault::NoBuild`], also where what stands beside the table is another build's; the fault of a spoiled
    /// build, [`Fault::NotScanned`], [`Fault::NotSealed`]. Takes no memory.
    pub fn end_scan<S: Spool>(&mut self, building: &mut Building<S, T>) -> Result<(), Fault>
        ensures loads { OnOk result ((index : ℕ) → IfSome building.new.work (λ w. index < length w.specs) → CanLoad index building.new) }
        ensures works { OnOk result (StandsBeside self.new building.new) }
        ensures hands_over { OnOk result (IfSome building.old.work (λ w. w.handed ≡ false → HandsOver self.old building.old self.new building.new)) }
        ensures again { OnOk result (IfSome building.old.work (λ w. w.handed ≡ true → IsOnlyLookedAt self.old building.old self.new building.new)) }
        ensures all { OnOk result (IsPartOf self.old building.old × HaveAll self.old building.old) }
        ensures first { OnOk result (early_cause false (core_state self.old building.old) ≡ None) }
        ensures out { IfErr result (λ fault. IsKeptOut false self.old building.old fault self.new building.new) }
        ensures state { core_state self.new building.new ≡ core_state self.old building.old }
        ensures kept { StandsBeside self.old building.old → StandsBeside self.new building.new }
    {
        self.take_in(building, false)?;
        building.laws();
        // What the table keeps is known once one of its fields is reached.
        let _build = &self.build;
        self.hand_over(0, building);
        Ok(())
    }

    /// Puts the pairs of the index in order that the workers made, and answers how many there are; 0 where they are in order
    /// already. Want of memory spoils the build.
    pub fn load<S: Spool>(
        &self,
        index: usize,
        building: &mut Building<S, T>,
    ) -> Result<usize, Fault>
        requires works { StandsBeside self.now building.old }
        requires runs { MayLoad self.now building.old index }
        ensures first { OnErr result ((index_at (core_state self.now building.old).work.indexes index).loaded ≡ false) }
        ensures loaded { IfOk result (λ pairs. Loads index (core_state self.now building.old) pairs (core_state self.now building.new)) }
        ensures spoiled { IfErr result (λ fault. core_state self.now building.new ≡ spoiled_by fault (core_state self.now building.old)) }
        ensures works { StandsBeside self.now building.new }
        ensures memory { IfErr result (λ fault. fault ≡ Fault.Memory) }
    {
        self.hand_over(index, building);
        building.load(self.alloc, index)
    }

    /// The workers hand their spools over, unless they did so before. Callers of a core see no difference.
    fn hand_over<S: Spool>(&self, index: usize, building: &mut Building<S, T>)
        requires { MayLoad self.now building.old index }
        ensures state { core_state self.now building.new ≡ core_state self.now building.old }
        ensures loads { IsLoading self.now building.new index }
        ensures first { IfSome building.old.work (λ w. w.handed ≡ false → HasHandedOver building.old building.new) }
        ensures again { IfSome building.old.work (λ w. w.handed ≡ true → building.new ≡ building.old) }
    {
        // That there are sixteen rings is known once their fields are reached.
        let _pages = &self.pages;
        if !building.is_loading() {
            building.hand_over();
        }
    }
}

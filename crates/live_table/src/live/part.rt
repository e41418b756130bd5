//! Whether what stands beside a table is of the build that runs on it.
ghost use Rattle.std.specs.Prelude.{◌≡◌, ◌<◌, ◌↔◌, IsTrue, length, true, false, None, Some, IfErr, IfSome, OnOk, MatchResult};
ghost use Rattle.build_events.specs.BuildSteps.{OnBuild};
ghost use Rattle.live_lemmas.specs.Builds.{core_state, SideIsLooked, SeesSideAt, StandsBeside};
ghost use Rattle.live_lemmas.specs.Switching.{IsUnspoiled, IsFedAt, IsOfBuild, IsPartOf, IsScannedWhole, IsTakenIn, SidesAreLooked};
ghost use Rattle.live_lemmas.specs.Switching.{early_cause, HaveAll, IsOnlyLookedAt, KeepsOut};

use crate::{Building, Live, TableRings};
use keybytes::{Fault, KeySpec};
use run_spool::Spool;

impl<T: TableRings> Live<T> {
    /// Looks whether what stands beside the table can be taken in, from which it may have been kept apart: it is of the build that runs,
    /// all was copied and taken, and put in order where that is asked. [`Fault::NoBuild`], the fault of a spoiled build,
    /// [`Fault::NotScanned`], [`Fault::NotLoaded`], [`Fault::NotSealed`]. Takes no memory.
    pub(crate) fn take_in<S: Spool>(
        &mut self,
        building: &mut Building<S, T>,
        in_order: bool,
    ) -> Result<(), Fault>
        ensures works { OnOk result (StandsBeside self.new building.new) }
        ensures taken { OnOk result (IsTakenIn self.new building.new) }
        ensures all { OnOk result (IsPartOf self.old building.old × HaveAll self.old building.old) }
        ensures first { OnOk result (early_cause in_order (core_state self.old building.old) ≡ None) }
        ensures state { core_state self.new building.new ≡ core_state self.old building.old }
        ensures kept { StandsBeside self.old building.old → StandsBeside self.new building.new }
        ensures out { IfErr result (KeepsOut in_order self.old building.old) }
        ensures looked { IsOnlyLookedAt self.old building.old self.new building.new }
    {
        if !self.is_part(building) {
            return Err(Fault::NoBuild);
        }
        self.check_early(building, in_order)?;
        if let Some(worker) = self.unsealed(building) {
            return Err(Fault::NotSealed(worker));
        }
        self.reunite(building);
        Ok(())
    }

    /// Does nothing: its clause tells that the work of which nothing is left over is beside the table as if it had never been apart.
    fn reunite<S: Spool>(&self, building: &Building<S, T>)
        requires { IsTakenIn self.now building.now }
        ensures { StandsBeside self.now building.now }
    {
        self.laws();
        building.laws();
        // That there is a ring for each worker and for each index is known once their fields are reached.
        let _pages = &self.pages;
    }

    /// Whether what stands beside the table is of the build that runs, of which it may have been kept apart: whether it has its number
    /// and its indexes, and as many workers, and of each index just the entries that were fed and not applied wait.
    pub(crate) fn is_part<S: Spool>(&mut self, building: &mut Building<S, T>) -> bool
        ensures part { result ≡ true → IsPartOf self.new building.new }
        ensures foreign { result ≡ false → IsPartOf self.old building.old → ⊥ }
        ensures looked { SidesAreLooked self.old building.old self.new building.new }
    {
        if !self.is_of_build(building) {
            return false;
        }
        self.are_fed(building)
    }

    /// Whether it has the build's number and indexes, and as many workers.
    fn is_of_build<S: Spool>(&self, building: &Building<S, T>) -> bool
        ensures of { result ≡ true → IsOfBuild self.now building.now }
        ensures foreign { result ≡ false → IsOfBuild self.now building.now → ⊥ }
    {
        let (Some(build), Some(work)) = (self.build(), building.work()) else {
            return false;
        };
        if build.number() != work.number() || build.workers() != building.workers() {
            return false;
        }
        if work.indexes().len() != build.indexes() {
            return false;
        }
        are_same(build.specs(), work.specs())
    }

    /// Whether of each index just the entries that were fed and not applied wait in its ring.
    fn are_fed<S: Spool>(&mut self, building: &mut Building<S, T>) -> bool
        requires { IsOfBuild self.old building.old }
        ensures part { result ≡ true → IsPartOf self.new building.new }
        ensures foreign { result ≡ false → IsPartOf self.old building.old → ⊥ }
        ensures looked { SidesAreLooked self.old building.old self.new building.new }
    {
        let Some(build) = self.build() else {
            unreachable!()
        };
        for index in 0..build.indexes() {
            if !self.is_fed(index, building) {
                return false;
            }
        }
        true
    }

    /// The same of one index.
    fn is_fed<S: Spool>(&mut self, index: usize, building: &mut Building<S, T>) -> bool
        requires of { IsOfBuild self.old building.old }
        requires there { IfSome self.old.state.build (λ b. index < length b.specs) }
        requires few { index < 8 }
        ensures looked { SideIsLooked index self.old building.old self.new building.new }
        ensures fed { IsTrue result ↔ IsFedAt index self.new building.new }
    {
        let waiting = self.look_at_side(index, building);
        self.are_waiting(index, waiting, building)
    }

    /// Whether so many entries of an index were fed and not applied.
    fn are_waiting<S: Spool>(&self, index: usize, waiting: usize, building: &Building<S, T>) -> bool
        requires of { IsOfBuild self.now building.now }
        requires there { IfSome self.now.state.build (λ b. index < length b.specs) }
        requires sees { SeesSideAt index waiting self.now building.now }
        ensures { IsTrue result ↔ IsFedAt index self.now building.now }
    {
        building.laws();
        let Some(work) = building.work() else {
            unreachable!()
        };
        let side = &self.sides[index];
        side.laws();
        let (fed, applied) = (side.fed(), work.applied(index));
        applied <= fed && waiting == fed - applied
    }

    /// Why a build waits before its workers are asked, whose indexes have to be in order or not. Takes no memory.
    pub(crate) fn check_early<S: Spool>(
        &self,
        building: &Building<S, T>,
        in_order: bool,
    ) -> Result<(), Fault>
        requires { IsOfBuild self.now building.now }
        ensures cause { MatchResult result
            (λ _. early_cause in_order (core_state self.now building.now) ≡ None)
            (λ fault. early_cause in_order (core_state self.now building.now) ≡ Some fault) }
        ensures scanned { OnOk result (IsScannedWhole self.now) }
        ensures fine { OnOk result (IsUnspoiled building.now) }
    {
        let (Some(build), Some(work)) = (self.build(), building.work()) else {
            unreachable!()
        };
        work.check()?;
        if let Some(range) = build.first_open() {
            return Err(Fault::NotScanned(range));
        }
        if !in_order {
            return Ok(());
        }
        if let Some(index) = work.first_unloaded() {
            return Err(Fault::NotLoaded(index));
        }
        Ok(())
    }
}

/// Whether these make the same keys, for as many indexes, of which the same are unique.
fn are_same(one: &[KeySpec], other: &[KeySpec]) -> bool
    ensures { IsTrue result ↔ (one.now ≡ other.now) }
{
    if one.len() != other.len() {
        return false;
    }
    for index in 0..one.len() {
        if !one[index].is_same(&other[index]) {
            return false;
        }
    }
    true
}

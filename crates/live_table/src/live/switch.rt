//! The switch of a build: the entries that are left are applied to its indexes, of which the accepted are then ready.
ghost use Rattle.std.specs.Prelude.{◌≡◌, ◌+◌, ◌++◌, ◌^◌, ◌<◌, ◌≤◌, length, None, Some, IsSome, IfSome, IfOk, IfErr, OnOk, OnErr, MatchResult, vec_len, vec_capacity, All, map, true};
ghost use Rattle.std.specs.List.{AllZip};
ghost use Rattle.heap_log.specs.declared.record.LogRec.{LogRec};
ghost use Rattle.heap_table.specs.HeapState.{HeapState, after_switch, busy_txns};
ghost use Rattle.keybytes.specs.Keys.{are_key_columns};
ghost use Rattle.heap_table.specs.Pages.{KeepsRows};
ghost use Rattle.live_lemmas.specs.Builds.{core_state, cause_of, StandsBeside};
ghost use Rattle.side_file.specs.Ends.{PutEndLooked};
ghost use Rattle.live_lemmas.specs.Putting.{SendsAll, SendsNext, SendsOn};
ghost use Rattle.live_lemmas.specs.Switching.{HaveAll, IsPartOf, RefusesSwitch};
ghost use Rattle.live_lemmas.specs.CatchingUp.{MayCatchUp, IndexIsFurther, IsDoneIndex, left_at, ready_of};
ghost use Rattle.building.specs.Verdicts.{its_verdict};
ghost use Rattle.ready_indexes.specs.Following.{AllFollow, MayFollow, indexes_of};
ghost use Rattle.build_events.specs.BuildSteps.{Switches, OnBuild, CatchesUp, busy_refusal};
ghost use Rattle.build_events.specs.Steps.{IsRefused};
ghost use Rattle.build_events.specs.Verdicts.{outcome, outcomes};
ghost use Rattle.build_events.specs.Workers.{all_unapplied};
ghost use Rattle.build_events.specs.declared.event.Event.{Event};

use crate::{Building, Live, Switched, TableRings};
use building::IndexWork;
use heap_log::{LogRec, Outcome, Verdicts};
use heap_table::Heap;
use keybytes::{Fault, KeySpec};
use ready_indexes::ReadyIndexes;
use run_spool::Spool;
use side_file::RING_ENTRIES;
use std::alloc::Global;
use table_scan::TableScan;
use unique_verdict::Verdict;

/// The most entries of all side-files that a switch applies.
const SWITCH_MAX: usize = 1024;

impl<T: TableRings> Live<T> {
    /// How many entries of an index's side-file were not applied yet.
    fn unapplied_of<S: Spool>(&self, index: usize, building: &Building<S, T>) -> usize
        requires works { StandsBeside self.now building.now }
        requires there { IfSome self.now.state.build (λ b. index < length b.specs) }
        requires runs { IsSome self.now.state.build }
        ensures left { result ≡ left_at index (core_state self.now building.now) }
        ensures countable { result < 2 ^ 60 }
    {
        let Some(work) = building.work() else {
            unreachable!()
        };
        building.laws();
        let side = &self.sides[index];
        side.laws();
        side.left() + (side.fed() - work.applied(index))
    }

    /// How many entries of all side-files were not applied yet.
    fn unapplied<S: Spool>(&self, building: &Building<S, T>) -> usize
        requires works { StandsBeside self.now building.now }
        requires runs { IsSome self.now.state.build }
        ensures { OnBuild self.now.state.build (λ b. result ≡ all_unapplied b self.now.state.heap.log b.specs (core_state self.now building.now).work.indexes) }
    {
        let Some(build) = self.build() else {
            unreachable!()
        };
        let mut sum = 0;
        for index in 0..build.indexes() {
            sum += self.unapplied_of(index, building);
        }
        sum
    }

    /// Why the indexes of the build would not become ready. Takes no memory.
    fn check_switch<S: Spool>(&self, building: &Building<S, T>) -> Result<(), Fault>
        requires { StandsBeside self.now building.now }
        ensures { MatchResult result
            (λ _. cause_of self.now building.now Event.Switch ≡ None)
            (λ fault. cause_of self.now building.now Event.Switch ≡ Some fault) }
    {
        let (Some(build), Some(work)) = (self.build(), building.work()) else {
            return Err(Fault::NoBuild);
        };
        work.check()?;
        if let Some(range) = build.first_open() {
            return Err(Fault::NotScanned(range));
        }
        if let Some(index) = work.first_unloaded() {
            return Err(Fault::NotLoaded(index));
        }
        let left = self.unapplied(building);
        if left > SWITCH_MAX {
            return Err(Fault::Behind(left));
        }
        self.check_busy(build)
    }

    /// A build with a unique index waits until no open transaction has a write that stands.
    fn check_busy(&self, build: &TableScan) -> Result<(), Fault>
        ensures { MatchResult result
            (λ _. busy_refusal build.now (length (busy_txns self.now.state.heap)) ≡ None)
            (λ fault. busy_refusal build.now (length (busy_txns self.now.state.heap)) ≡ Some fault) }
    {
        if !build.has_unique() {
            return Ok(());
        }
        let busy = self.heap.busy();
        if busy > 0 {
            return Err(Fault::Busy(busy));
        }
        Ok(())
    }

    /// Applies all entries that are left of each side-file. Those that were applied before memory was wanted stay applied.
    fn catch_up<S: Spool>(&mut self, building: &mut Building<S, T>) -> Result<(), Fault>
        requires works { StandsBeside self.old building.old }
        requires runs { MayCatchUp (core_state self.old building.old) }
        ensures further { CatchesUp (core_state self.old building.old) (core_state self.new building.new) }
        ensures all { OnOk result (OnBuild self.new.state.build
            (λ b. all_unapplied b self.new.state.heap.log b.specs (core_state self.new building.new).work.indexes ≡ 0)) }
        ensures works { StandsBeside self.new building.new }
        ensures sends { SendsOn self.old self.new }
        ensures fed { OnOk result (SendsAll self.old self.new.sides) }
        ensures pages { self.new.pages ≡ self.old.pages }
        ensures memory { IfErr result (λ fault. fault ≡ Fault.Memory) }
    {
        let Some(build) = self.build() else {
            unreachable!()
        };
        building.laws();
        for index in 0..build.indexes() {
            self.catch_up_one(index, building)?;
        }
        Ok(())
    }

    /// Applies all entries that are left of an index's side-file.
    fn catch_up_one<S: Spool>(
        &mut self,
        index: usize,
        building: &mut Building<S, T>,
    ) -> Result<(), Fault>
        requires works { StandsBeside self.old building.old }
        requires few { index < 8 }
        requires runs { cause_of self.old building.old (Event.Apply index 256) ≡ None }
        ensures further { IndexIsFurther index (core_state self.old building.old) (core_state self.new building.new) }
        ensures all { OnOk result (left_at index (core_state self.new building.new) ≡ 0) }
        ensures works { StandsBeside self.new building.new }
        ensures sends { SendsOn self.old self.new }
        ensures pages { self.new.pages ≡ self.old.pages }
        ensures memory { IfErr result (λ fault. fault ≡ Fault.Memory) }
    {
        // Both ends of its ring then know what waits in it.
        self.look_at_side(index, building);
        while self.unapplied_of(index, building) > 0 {
            let Ok(_moved) = self.feed_beside(index, RING_ENTRIES, building) else {
                unreachable!()
            };
            self.apply(index, RING_ENTRIES, building)?;
        }
        Ok(())
    }

    /// Applies the entries that are left, makes the indexes of the build ready, and ends it and its spools; answered with the
    /// log record and its number, and what became of each index. [`Fault::NoBuild`], also where what stands beside the table is another
    /// build's; the fault of a spoiled build, [`Fault::NotScanned`], [`Fault::NotLoaded`]; [`Fault::NotSealed`] where a copy is left in a
    /// worker's ring, or its run is open; [`Fault::Behind`], [`Fault::Busy`]. Where memory is wanted, entries that were applied stay applied, and
    /// it can be called again, as after Behind and Busy.
    pub fn switch_in<S: Spool>(&mut self, building: &mut Building<S, T>) -> Result<Switched, Fault>
        ensures switched { IfOk result (λ done. Switches (core_state self.old building.old) (done.number, done.verdicts) (core_state self.new building.new)) }
        ensures record { IfOk result (λ done. done.record ≡ LogRec.Switch done.verdicts) }
        ensures accepted { OnOk result (cause_of self.old building.old Event.Switch ≡ None) }
        ensures all { OnOk result (IsPartOf self.old building.old × HaveAll self.old building.old) }
        ensures refused { IfErr result (λ fault. RefusesSwitch self.old building.old fault self.new building.new) }
        ensures own { StandsBeside self.old building.old
            → IfErr result (λ fault. IsRefused (core_state self.old building.old) Event.Switch fault (core_state self.new building.new)) }
        ensures works { OnOk result (StandsBeside self.new building.new) }
        ensures kept { StandsBeside self.old building.old → StandsBeside self.new building.new }
        ensures pages { AllZip PutEndLooked self.old.pages self.new.pages }
        ensures sides { SendsNext self.old self.new.sides }
        ensures fed { OnOk result (SendsAll self.old self.new.sides) }
    {
        // What both keep is known once it is told.
        building.laws();
        let _pages = &self.pages;
        self.take_in(building, true)?;
        self.switch_own(building)
    }

    /// The same of work that goes with the build, once its workers have taken all.
    fn switch_own<S: Spool>(&mut self, building: &mut Building<S, T>) -> Result<Switched, Fault>
        requires { StandsBeside self.old building.old }
        ensures switched { IfOk result (λ done. Switches (core_state self.old building.old) (done.number, done.verdicts) (core_state self.new building.new)) }
        ensures record { IfOk result (λ done. done.record ≡ LogRec.Switch done.verdicts) }
        ensures accepted { OnOk result (cause_of self.old building.old Event.Switch ≡ None) }
        ensures refused { IfErr result (λ fault. IsRefused (core_state self.old building.old) Event.Switch fault (core_state self.new building.new)) }
        ensures works { StandsBeside self.new building.new }
        ensures pages { self.new.pages ≡ self.old.pages }
        ensures sides { SendsNext self.old self.new.sides }
        ensures fed { OnOk result (SendsAll self.old self.new.sides) }
    {
        self.check_switch(building)?;
        self.catch_up(building)?;
        self.heap.laws();
        let Some(work) = building.work() else {
            unreachable!()
        };
        let noted = note_ready(self.alloc, &mut self.heap, &mut self.ready, work.indexes())?;
        self.heap.set_fence(false);
        let (Some(build), Some(indexes)) = (self.build.take(), building.end()) else {
            unreachable!()
        };
        let specs = build.into_specs();
        make_ready(self.alloc, &mut self.ready, specs, indexes);
        self.ready.laws();
        Ok(noted)
    }
}

/// The accepted indexes of a build are ready, behind those that were so before; the refused are dropped.
fn make_ready(alloc: Global, ready: &mut ReadyIndexes, specs: Vec<KeySpec>, indexes: Vec<IndexWork>)
    requires many { length indexes.items ≡ length specs.items }
    requires room { length specs.items ≤ ready.old.room }
    requires indexes { AllZip IsDoneIndex specs.items indexes.items }
    ensures ready { indexes_of ready.new.indexes ≡ indexes_of ready.old.indexes ++ ready_of specs.items indexes.items }
    ensures follow { (heap : HeapState) → All (λ it. MayFollow heap it.spec it.pairs) (ready_of specs.items indexes.items)
        → AllFollow heap.schema heap.log ready.old.indexes → AllFollow heap.schema heap.log ready.new.indexes }
    ensures keys { All (λ spec. are_key_columns spec.kinds spec.columns ≡ true) specs.items }
{
    let mut indexes = indexes.into_iter();
    for spec in specs {
        // It tells that its columns make a key, whose bytes are then in the columns' order.
        let _columns = spec.columns();
        let Some(index) = indexes.next() else {
            unreachable!()
        };
        if index.is_accepted() {
            ready.push(alloc, spec, index.into_tree());
        }
    }
}

/// Notes in the log what becomes of the indexes, and makes room for them. All memory is taken before the note, behind which nothing may fail.
fn note_ready(
    alloc: Global,
    heap: &mut Heap,
    ready: &mut ReadyIndexes,
    indexes: &[IndexWork],
) -> Result<Switched, Fault>
    requires { length indexes.now ≤ 8 }
    ensures number { IfOk result (λ done. done.number ≡ length heap.old.state.log + 1) }
    ensures verdicts { IfOk result (λ done. done.verdicts ≡ outcomes (length (indexes_of ready.old.indexes)) (map its_verdict indexes.now)) }
    ensures record { IfOk result (λ done. done.record ≡ LogRec.Switch done.verdicts) }
    ensures noted { OnOk result (heap.new.state
        ≡ after_switch heap.old.state (outcomes (length (indexes_of ready.old.indexes)) (map its_verdict indexes.now))) }
    ensures rows { KeepsRows heap.old.state.log heap.new.state.log }
    ensures room { OnOk result (length indexes.now ≤ ready.new.room) }
    ensures ready { ready.new.indexes ≡ ready.old.indexes }
    ensures unchanged { OnErr result (heap.new ≡ heap.old) }
    ensures memory { IfErr result (λ fault. fault ≡ Fault.Memory) }
{
    let first = ready.len();
    ready.make_room(indexes.len())?;
    let noted = verdicts_from(alloc, first, indexes)?;
    let told = verdicts_from(alloc, first, indexes)?;
    let copied = verdicts_from(alloc, first, indexes)?;
    let number = heap.note(noted)?;
    let verdicts = Verdicts::new(told);
    let record = LogRec::Switch {
        verdicts: Verdicts::new(copied),
    };
    Ok(Switched {
        number,
        verdicts,
        record,
    })
}

/// What becomes of the indexes: the accepted are ready, numbered from the first on.
fn verdicts_from(alloc: Global, first: usize, indexes: &[IndexWork]) -> Result<Vec<Outcome>, Fault>
    requires { first + length indexes.now < 2 ^ 64 }
    ensures ok { IfOk result (λ verdicts. verdicts.items ≡ outcomes first (map its_verdict indexes.now)) }
    ensures memory { IfErr result (λ fault. fault ≡ Fault.Memory) }
{
    let mut verdicts = Vec::with_capacity(alloc, indexes.len())?;
    let mut number = first;
    for index in indexes {
        verdicts.push_reserved(outcome_of(number, index.verdict()?));
        if index.is_accepted() {
            number += 1;
        }
    }
    Ok(verdicts)
}

/// What becomes of an index by its verdict; an accepted one is ready under that number.
fn outcome_of(number: usize, verdict: Verdict) -> Outcome
    ensures { result ≡ outcome number verdict }
{
    match verdict {
        Verdict::Unique => Outcome::Ready(number),
        Verdict::Shared { key, first, second } => Outcome::Shared { key, first, second },
    }
}

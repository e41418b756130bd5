//! The steps of a build that are done under the lock.
ghost use Rattle.std.specs.Prelude.{◌≡◌, ◌≢◌, ◌⊎◌, ℕ, ◌<◌, ◌≤◌, ◌+◌, ◌*◌, List, length, map, drop, Some, None, true, false, IfOk, IfErr, IfSome, IsSome, OnErr, OnOk, All};
ghost use Rattle.std.specs.List.{AllZip};
ghost use Rattle.keybytes.specs.Answered.{Answered};
ghost use Rattle.keybytes.specs.Keys.{KeySpecValue};
ghost use Rattle.keybytes.specs.declared.fault.Fault.{Fault};
ghost use Rattle.side_file.specs.Ends.{PutEndLooked};
ghost use Rattle.build_events.specs.BuildSteps.{Scans, Starts, Switches, fenced, start_refusal};
ghost use Rattle.build_events.specs.CoreState.{abandoned};
ghost use Rattle.building.specs.BuildingValue.{intakes};
ghost use Rattle.building.specs.IndexLoads.{CanLoadAll};
ghost use Rattle.building.specs.Lent.{CanLend};
ghost use Rattle.building.specs.Rings.{all_free, begun_on};
ghost use Rattle.ready_indexes.specs.Following.{indexes_of};
ghost use Rattle.live_lemmas.specs.Builds.{StandsBeside, core_state, page_refusal, put_refusal};
ghost use Rattle.live_lemmas.specs.Putting.{IsPutTo, SendsAll, SendsNext};
ghost use Rattle.live_lemmas.specs.Settling.{FeedsEach, HasRoomForBatch, IsSettled, OnlyFeeds, waiting_in};
ghost use Rattle.live_lemmas.specs.Switching.{HandsOver, HaveAll, IsKeptOut, IsOnlyLookedAt, IsPartOf, KeepsOut, early_cause};
ghost use Rattle.crew.specs.Credits.{HasKnown, IsBounded, IsKnown, IsSettledBeside, TakesMore, caught_up_by, indexes_of_build, live_in};
ghost use Rattle.crew.specs.Fencing.{RefusesToSwitch};
ghost use Rattle.crew.specs.Reports.{EndsFor, IsOther, IsReport, lists_in};
ghost use Rattle.crew.specs.Places.{GoesOnWith, HasPairsLeft, StillScans, stakes_beside};

use crate::locked::{Credit, Locked, copied};
use crate::{CaughtUp, Opened, Progress, Receipt, Report};
use builder_core::{Building, Plan, ReadyIndexes};
use chunk_list::ChunkQueue;
use heap_table::PageImage;
use keybytes::{Fault, Pair};
use run_spool::Spool;
use side_file::Entry;
use std::alloc::Global;

impl<T: Opened> Locked<T> {
    /// A build of the plan's indexes starts. Answers how many pages it reads.
    pub(crate) fn start<S: Spool>(
        &mut self,
        plan: &Plan,
        building: &mut Building<S, T>,
    ) -> Result<u32, Fault>
        ensures lendable { OnOk result (CanLend building.new) }
        ensures goes_on { OnOk result (GoesOnWith 0 plan.now.specs.items building.new) }
        ensures stakes { stakes_beside building.new ≡ stakes_beside building.old }
        ensures not_empty { IfErr result (λ fault. fault ≡ Fault.SpoolNotEmpty → HasPairsLeft building.old) }
        ensures not_busy { IfErr result (λ fault. (count : ℕ) → fault ≢ Fault.Busy count) }
        ensures not_behind { IfErr result (λ fault. (left : ℕ) → fault ≢ Fault.Behind left) }
        ensures started { Answered (start_refusal self.old.state (core_state (live_in self.old) building.old).spools plan.now) (Starts plan.now)
            (core_state (live_in self.old) building.old) result (core_state (live_in self.new) building.new) }
        ensures works { OnOk result (StandsBeside (live_in self.new) building.new) }
        ensures emptied { OnOk result (intakes building.new.workers building.new.idle ≡ map (begun_on self.new.state.builds) self.new.pages) }
        ensures pages { OnOk result (self.new.pages ≡ map all_free self.old.pages) }
        ensures sides { OnOk result (AllZip PutEndLooked self.old.sides self.new.sides) }
        ensures unchanged { OnErr result ((self.new ≡ self.old) × (building.new ≡ building.old)) }
        ensures credit { OnOk result (self.new.credit ≡ None) }
        ensures log { self.new.state.heap.log ≡ self.old.state.heap.log }
    {
        let number = self.live.start(plan, building)?;
        self.credit = None;
        self.progress = Progress::started(self.live.heap().pages());
        Ok(number)
    }

    /// The lowest page of the range that is left is copied for the worker, in one step. Where it is refused the buffer is handed back.
    pub(crate) fn scan_step(
        &mut self,
        range: usize,
        worker: usize,
        image: PageImage,
    ) -> Result<u32, (PageImage, Fault)>
        ensures scanned { IfOk result (λ page. Scans range worker self.old.state page self.new.state) }
        ensures accepted { OnOk result (page_refusal self.old.state range worker ≡ None) }
        ensures put { OnOk result (IsPutTo worker (live_in self.old) (live_in self.new)) }
        ensures looked { OnErr result (AllZip PutEndLooked self.old.pages self.new.pages) }
        ensures sides { self.new.sides ≡ self.old.sides }
        ensures unchanged { OnErr result (self.new.state ≡ self.old.state) }
        ensures refused { IfErr result (λ back. put_refusal (live_in self.new) range worker ≡ Some back.1) }
        ensures handed_back { IfErr result (λ back. back.0 ≡ image) }
        ensures other { IfErr result (λ back. IsOther back.1) }
        ensures credit { self.new.credit ≡ None }
        ensures log { self.new.state.heap.log ≡ self.old.state.heap.log }
    {
        self.credit = None;
        let page = self.live.scan_step(range, worker, image)?;
        self.progress.note_page();
        Ok(page)
    }

    /// All pages were copied and their pairs made: the workers hand their spools over to the indexes.
    pub(crate) fn end_scan<S: Spool>(&mut self, building: &mut Building<S, T>) -> Result<(), Fault>
        ensures loads { OnOk result ((specs : List KeySpecValue) → GoesOnWith 0 specs building.old → StillScans building.old → CanLoadAll building.new) }
        ensures goes_on { OnOk result ((specs : List KeySpecValue) → GoesOnWith 0 specs building.old → GoesOnWith 0 specs building.new) }
        ensures stakes { stakes_beside building.new ≡ stakes_beside building.old }
        ensures hands_over { OnOk result (IfSome building.old.work
            (λ w. w.handed ≡ false → HandsOver (live_in self.old) building.old (live_in self.new) building.new)) }
        ensures again { OnOk result (IfSome building.old.work
            (λ w. w.handed ≡ true → IsOnlyLookedAt (live_in self.old) building.old (live_in self.new) building.new)) }
        ensures works { OnOk result (StandsBeside (live_in self.new) building.new) }
        ensures all { OnOk result (IsPartOf (live_in self.old) building.old × HaveAll (live_in self.old) building.old) }
        ensures first { OnOk result (early_cause false (core_state (live_in self.old) building.old) ≡ None) }
        ensures out { IfErr result (λ fault. IsKeptOut false (live_in self.old) building.old fault (live_in self.new) building.new) }
        ensures same { core_state (live_in self.new) building.new ≡ core_state (live_in self.old) building.old }
        ensures other { IfErr result (λ fault. IfSome building.old.work (λ w. w.spoiled ≡ None → IsOther fault)) }
        ensures credit { self.new.credit ≡ None }
        ensures log { self.new.state.heap.log ≡ self.old.state.heap.log }
    {
        self.credit = None;
        // What is kept of the indexes is known once it is told.
        building.laws();
        self.live.end_scan(building)?;
        self.progress.note_scanned();
        Ok(())
    }

    /// A turn begins of the build that knows the credit so, which has applied all that it took. Answers how many entries wait for it.
    /// [`Fault::NoBuild`] where that isn't the build that has the credit, or where some of what it took still waits.
    pub(crate) fn begin_turn<S: Spool>(
        &mut self,
        known: Credit,
        building: &mut Building<S, T>,
    ) -> Result<usize, Fault>
        ensures left { IfOk result (λ left. left ≡ waiting_in self.new.state) }
        ensures credit { OnOk result (self.new.credit ≡ Some (record known { applied = known.taken })) }
        ensures settled { OnOk result (IsSettledBeside self.new building.new) }
        ensures goes_on { OnOk result ((count : ℕ) (specs : List KeySpecValue) → GoesOnWith count specs building.old → GoesOnWith count specs building.new) }
        ensures stakes { stakes_beside building.new ≡ stakes_beside building.old }
        ensures known { OnOk result (HasKnown known self.old.credit) }
        ensures same { core_state (live_in self.new) building.new ≡ core_state (live_in self.old) building.old }
        ensures refused { IfErr result (λ fault. KeepsOut true (live_in self.old) building.old fault
            ⊎ ((fault ≡ Fault.NoBuild) × (HasKnown known self.old.credit → IsSettled (core_state (live_in self.old) building.old) → ⊥))) }
        ensures kept { OnErr result (self.new.credit ≡ self.old.credit) }
        ensures other { IfErr result (λ fault. IfSome building.old.work (λ w. w.spoiled ≡ None → IsOther fault)) }
        ensures log { self.new.state.heap.log ≡ self.old.state.heap.log }
    {
        let credit = self.known_credit(known)?;
        // What is kept of the indexes is known once it is told.
        building.laws();
        self.live.check_settled(building)?;
        self.credit = Some(credit.after_all());
        self.progress.note_settled();
        Ok(self.live.entries_left())
    }

    /// The credit, where it is that which the build knows. [`Fault::NoBuild`].
    fn known_credit(&self, known: Credit) -> Result<Credit, Fault>
        ensures same { IfOk result (λ credit. self.now.credit ≡ Some credit) }
        ensures known { IfOk result (IsKnown known) }
        ensures other { IfErr result (λ fault. fault ≡ Fault.NoBuild) }
        ensures unknown { OnErr result (HasKnown known self.now.credit → ⊥) }
    {
        match self.credit {
            Some(credit) if credit.is_known(known) => Ok(credit),
            _ => Err(Fault::NoBuild),
        }
    }

    /// A turn moves the first entries that are left of each index into its ring as a batch, at most `most` of each. There is a queue for each batch.
    /// Answers the credit that the build knows then.
    pub(crate) fn feed_all<S: Spool>(
        &mut self,
        most: usize,
        batches: Vec<ChunkQueue<Entry>>,
        building: &mut Building<S, T>,
    ) -> Credit
        requires settled { IsSettledBeside self.old building.old }
        requires batches { length batches.items ≡ indexes_of_build self.old.state.build }
        requires most { 2048 ≤ most }
        requires room { All (HasRoomForBatch most) batches.items }
        requires many { 1024 < waiting_in self.old.state }
        requires credit { IsSome self.old.credit }
        ensures feeds { OnlyFeeds (core_state (live_in self.old) building.old) (core_state (live_in self.new) building.new) }
        ensures each { FeedsEach most (core_state (live_in self.old) building.old) (core_state (live_in self.new) building.new) }
        ensures works { StandsBeside (live_in self.new) building.new }
        ensures taken { IfSome self.old.credit (λ credit. TakesMore credit result) }
        ensures counted { IfSome self.old.credit (λ credit. waiting_in self.new.state + result.taken ≡ waiting_in self.old.state + credit.taken) }
        ensures within { IfSome self.old.credit (λ credit. result.taken ≤ credit.taken + length batches.items * most) }
        ensures given { self.new.credit ≡ Some result }
        ensures goes_on { (count : ℕ) (specs : List KeySpecValue) → GoesOnWith count specs building.old → GoesOnWith count specs building.new }
        ensures stakes { stakes_beside building.new ≡ stakes_beside building.old }
        ensures log { self.new.state.heap.log ≡ self.old.state.heap.log }
    {
        let Some(credit) = self.credit else {
            unreachable!()
        };
        let fed = self.live.feed_all(most, batches, building);
        self.progress.note_fed(fed);
        let after = credit.after_taking(fed);
        self.credit = Some(after);
        after
    }

    /// How the build caught up, as its credit tells.
    fn caught_up(&self) -> CaughtUp
        ensures told { IfSome self.now.credit (λ credit. result ≡ caught_up_by credit) }
        ensures bounded { IsBounded (indexes_of_build self.now.state.build) (length self.now.state.heap.log) result }
    {
        match self.credit {
            Some(credit) => CaughtUp {
                waited: credit.first,
                turns: credit.turns,
            },
            None => CaughtUp {
                waited: 0,
                turns: 0,
            },
        }
    }

    /// Gives the build up, if one runs, with room for the entries that no index gets any more.
    pub(crate) fn abandon(&mut self, waste: &mut Vec<ChunkQueue<Entry>>)
        ensures abandoned { live_in self.new ≡ record (live_in self.old) { state = abandoned self.old.state } }
        ensures none { self.new.state.build ≡ None }
        ensures credit { self.new.credit ≡ None }
        ensures log { self.new.state.heap.log ≡ self.old.state.heap.log }
    {
        self.credit = None;
        self.live.give_up_into(waste);
        self.progress = Progress::idle();
    }

    /// Switches the indexes in, and answers what the build reports, with the pairs if they are asked for. Where busy transactions keep it waiting
    /// no other transaction begins from here on. Sessions need no credit any more.
    pub(crate) fn switch<S: Spool>(
        &mut self,
        alloc: Global,
        keep_pairs: bool,
        building: &mut Building<S, T>,
    ) -> Result<Report<T>, Fault>
        requires settled { IsSettledBeside self.old building.old }
        requires few { waiting_in self.old.state ≤ 1024 }
        ensures report { IfOk result (λ report. IfSome building.old.work
            (λ w. IsReport T.opening w.specs report.receipt report.verdicts (lists_in report.pairs))) }
        ensures bounded { IfOk result (λ report. IsBounded (indexes_of_build self.old.state.build) (length report.receipt) report.caught_up) }
        ensures told { IfOk result (λ report. IfSome self.old.credit (λ credit. report.caught_up ≡ caught_up_by credit)) }
        ensures unasked { keep_pairs ≡ false → IfOk result (λ report. report.pairs ≡ None) }
        ensures switched { IfOk result (λ report. Switches (core_state (live_in self.old) building.old)
            (length report.receipt, report.verdicts) (core_state (live_in self.new) building.new)) }
        ensures works { OnOk result (StandsBeside (live_in self.new) building.new) }
        ensures refused { IfErr result (λ fault. RefusesToSwitch (live_in self.old) building.old fault (live_in self.new) building.new) }
        ensures pages { AllZip PutEndLooked self.old.pages self.new.pages }
        ensures sides { SendsNext (live_in self.old) self.new.sides }
        ensures fed { OnOk result (SendsAll (live_in self.old) self.new.sides) }
        ensures log { IfOk result (λ report. report.receipt ≡ self.new.state.heap.log) }
        ensures same { OnErr result (self.new.state.heap.log ≡ self.old.state.heap.log) }
        ensures credit { self.new.credit ≡ None }
        ensures stakes { stakes_beside building.new ≡ stakes_beside building.old }
        ensures goes_on { IfErr result (λ fault. fault ≢ Fault.Memory
            → (count : ℕ) (specs : List KeySpecValue) → GoesOnWith count specs building.old → GoesOnWith count specs building.new) }
        ensures ends { IfErr result (λ fault. IfSome building.old.work (λ w. w.spoiled ≡ None → EndsFor w.specs fault)) }
        ensures fenced { IfErr result (λ fault. IfSome building.old.work (λ w. w.spoiled ≡ None
            → (count : ℕ) → fault ≡ Fault.Busy count → self.new.state.heap.fenced ≡ true)) }
    {
        let caught_up = self.caught_up();
        self.credit = None;
        let first = self.live.ready().len();
        match self.live.switch_in(building) {
            Ok(switched) => {
                self.progress = Progress::idle();
                self.keeper.append(switched.number, &switched.record);
                let receipt = Receipt::new(self.keeper.tell(), switched.record);
                let pairs = self.pairs_from(alloc, keep_pairs, first);
                Ok(Report {
                    receipt,
                    verdicts: switched.verdicts,
                    pairs,
                    caught_up,
                })
            }
            Err(fault) => {
                self.fence_if_busy(fault);
                Err(fault)
            }
        }
    }

    /// Sets the fence where a switch waits for transactions.
    fn fence_if_busy(&mut self, fault: Fault)
        ensures log { self.new.state.heap.log ≡ self.old.state.heap.log }
        ensures credit { self.new.credit ≡ self.old.credit }
        ensures fenced { IsSome self.old.state.build → (count : ℕ) → fault ≡ Fault.Busy count → self.new.state.heap.fenced ≡ true }
        ensures busy { IsSome self.old.state.build → (count : ℕ) → fault ≡ Fault.Busy count
            → live_in self.new ≡ record (live_in self.old) { state = fenced self.old.state } }
        ensures others { ((count : ℕ) → fault ≢ Fault.Busy count) → self.new ≡ self.old }
        ensures pages { self.new.pages ≡ self.old.pages }
        ensures sides { self.new.sides ≡ self.old.sides }
    {
        if let Fault::Busy(_) = fault {
            let _fenced = self.live.fence();
        }
    }

    /// Copies of the pairs of the ready indexes from that number on, if they are asked for and memory is there.
    fn pairs_from(&self, alloc: Global, keep_pairs: bool, first: usize) -> Option<Vec<Vec<Pair>>>
        ensures kept { IfSome (lists_in result) (λ lists. lists ≡ map (λ it. it.pairs) (drop first self.now.state.ready)) }
        ensures unasked { keep_pairs ≡ false → result ≡ None }
    {
        if !keep_pairs {
            return None;
        }
        match copies_from(alloc, self.live.ready(), first) {
            Ok(pairs) => Some(pairs),
            Err(_) => None,
        }
    }
}

/// Copies of the pairs of these indexes, from that number on.
fn copies_from(alloc: Global, ready: &ReadyIndexes, first: usize) -> Result<Vec<Vec<Pair>>, Fault>
    ensures { IfOk result (λ pairs. map (λ it. it.items) pairs.items ≡ map (λ it. it.pairs) (drop first (indexes_of ready.now.indexes))) }
{
    let mut pairs = Vec::new(alloc);
    for number in first..ready.len() {
        let Some(index) = ready.get(number) else {
            unreachable!()
        };
        pairs.push(copied(alloc, index.tree())?)?;
    }
    Ok(pairs)
}

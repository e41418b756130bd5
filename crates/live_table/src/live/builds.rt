//! The steps of a build that touch the table.
ghost use Rattle.std.specs.Prelude.{◌≡◌, ◌<◌, length, All, Some, None, IfOk, IfErr, OnOk, OnErr, IsOk, IsSome, MatchOption, MatchResult, true, slice_get, map};
ghost use Rattle.std.specs.List.{AllZip, list_all, list_any};
ghost use Rattle.keybytes.specs.Answered.{Answered};
ghost use Rattle.side_file.specs.Ends.{PutEnd};
ghost use Rattle.heap_table.specs.Pages.{pages_written};
ghost use Rattle.side_file.specs.Ends.{PutEndLooked};
ghost use Rattle.page_workers.specs.declared.copied.Copied.{Copied};
ghost use Rattle.building.specs.BuildingValue.{BuildingValue, given_up, intakes};
ghost use Rattle.live_lemmas.specs.Builds.{core_state, put_refusal, page_refusal, StandsBeside};
ghost use Rattle.live_lemmas.specs.Putting.{IsPutTo};
ghost use Rattle.build_events.specs.CoreState.{abandoned};
ghost use Rattle.build_events.specs.Ranges.{next_page};
ghost use Rattle.scan_range.specs.Dealings.{dealing_refusal, dealt_ends};
ghost use Rattle.building.specs.Lent.{CanLend};
ghost use Rattle.building.specs.Rings.{all_free, begun_on};
ghost use Rattle.build_events.specs.BuildSteps.{Starts, Scans, OnBuild, start_refusal, counts_fit, fenced};
ghost use Rattle.keybytes.specs.Schemas.{same_kinds};

use crate::parts::{INDEXES_MAX, WORKERS_MAX};
use crate::{Building, Live, Plan, TableRings};
use building::{Work, prepare};
use heap_table::PageImage;
use keybytes::{Fault, KeySpec, Schema, copied_specs};
use page_workers::Copied;
use run_spool::Spool;
use table_scan::TableScan;

/// The most ready indexes of a table, counted with those that a plan is to build.
const READY_MAX: usize = 32;

/// Whether all specifications are of rows of these columns.
fn are_of(specs: &[KeySpec], schema: &Schema) -> bool
    ensures same { result ≡ list_all (λ spec. same_kinds spec.kinds schema.now) specs.now }
    ensures columns { result ≡ true → All (λ spec. spec.kinds ≡ schema.now) specs.now }
{
    for spec in specs {
        if !spec.is_of(schema) {
            return false;
        }
    }
    true
}

impl<T: TableRings> Live<T> {
    /// A build of the plan's indexes starts, and every ring is emptied; answered with the number of pages that it reads.
    /// [`Fault::BuildRunning`], [`Fault::BadCount`], [`Fault::BadColumn`], [`Fault::BadRanges`], [`Fault::SpoolNotEmpty`].
    pub fn start<S: Spool>(
        &mut self,
        plan: &Plan,
        building: &mut Building<S, T>,
    ) -> Result<u32, Fault>
        ensures started { Answered (start_refusal self.old.state (core_state self.old building.old).spools plan.now) (Starts plan.now)
            (core_state self.old building.old) result (core_state self.new building.new) }
        ensures works { OnOk result (StandsBeside self.new building.new) }
        ensures lendable { OnOk result (CanLend building.new) }
        ensures emptied { OnOk result (intakes building.new.workers building.new.idle ≡ map (begun_on self.new.state.builds) self.new.pages) }
        ensures pages { OnOk result (self.new.pages ≡ map all_free self.old.pages) }
        ensures sides { OnOk result (AllZip PutEndLooked self.old.sides self.new.sides) }
        ensures kept { StandsBeside self.old building.old → StandsBeside self.new building.new }
        ensures unchanged { OnErr result ((self.new ≡ self.old) × (building.new ≡ building.old)) }
    {
        self.check_plan(plan, building)?;
        let pages = self.heap.pages();
        let cuts = plan.dealing.cuts(self.alloc, pages)?;
        let number = self.builds + 1;
        let specs = copied_specs(self.alloc, &plan.specs)?;
        let equipment = prepare(self.alloc, self.heap.schema(), &specs, plan.workers)?;
        let workers = Vec::with_capacity(self.alloc, plan.workers)?;
        let home = Vec::with_capacity(self.alloc, building.spools_left())?;
        let work = Work::new(self.alloc, number, specs)?;
        let specs = copied_specs(self.alloc, &plan.specs)?;
        let records = self.heap.records();
        let build = TableScan::new(self.alloc, number, specs, plan.workers, records, cuts)?;
        building.laws();
        building.empty_rings(&mut self.pages, &mut self.sides, number);
        self.builds = number;
        self.build = Some(build);
        building.begin(self.alloc, work, equipment, workers, home);
        Ok(pages)
    }

    /// Why no build is started by a plan, with the spools that are left. Takes no memory.
    fn check_plan<S: Spool>(&self, plan: &Plan, building: &Building<S, T>) -> Result<(), Fault>
        ensures columns { OnOk result (All (λ spec. spec.kinds ≡ self.now.state.heap.schema) plan.now.specs.items) }
        ensures free { OnOk result (self.now.state.build ≡ None) }
        ensures number { OnOk result (self.now.state.builds < 18446744073709551615) }
        ensures counts { OnOk result (counts_fit self.now.state (length (core_state self.now building.now).spools.left) plan.now ≡ true) }
        ensures ranges { OnOk result (dealing_refusal (pages_written self.now.state.heap.log) plan.now.dealing ≡ None) }
        ensures empty { OnOk result (list_all (λ is_empty. is_empty) (core_state self.now building.now).spools.left ≡ true) }
        ensures accepted { OnOk result (start_refusal self.now.state (core_state self.now building.now).spools plan.now ≡ None) }
        ensures refused { IfErr result (λ fault. start_refusal self.now.state (core_state self.now building.now).spools plan.now ≡ Some fault) }
    {
        if self.build.is_some() {
            return Err(Fault::BuildRunning);
        }
        if !self.counts_fit(plan, building.spools_left()) {
            return Err(Fault::BadCount);
        }
        if !are_of(&plan.specs, self.heap.schema()) {
            return Err(Fault::BadColumn);
        }
        plan.dealing.check(self.heap.pages())?;
        if !building.are_left_empty() {
            return Err(Fault::SpoolNotEmpty);
        }
        Ok(())
    }

    /// Whether a plan has 1 to 16 workers and 1 to 8 indexes, with a spool for each of both, and there is room for them and for
    /// one build more.
    fn counts_fit(&self, plan: &Plan, spools: usize) -> bool
        ensures { result ≡ counts_fit self.now.state spools plan.now }
    {
        let indexes = plan.specs.len();
        plan.workers >= 1
            && plan.workers <= WORKERS_MAX
            && indexes >= 1
            && indexes <= INDEXES_MAX
            && self.ready.len() <= READY_MAX - indexes
            && self.builds < u64::MAX
            && spools == plan.workers * indexes
    }

    /// The lowest page of the range that is left to be copied for the worker.
    fn next_page(&self, range: usize, worker: usize) -> Result<u32, Fault>
        ensures page { IfOk result (λ page. OnBuild self.now.state.build (λ b. (next_page b range ≡ Some page) × (worker < b.workers))) }
        ensures accepted { OnOk result (page_refusal self.now.state range worker ≡ None) }
        ensures refused { IfErr result (λ fault. page_refusal self.now.state range worker ≡ Some fault) }
    {
        let build = self.build().ok_or(Fault::NoBuild)?;
        if range >= build.ranges() || worker >= build.workers() {
            return Err(Fault::BadCount);
        }
        build.next_page(range).ok_or(Fault::RangeDone)
    }

    /// Copies the lowest page of the range that is left into the buffer that is handed in, and puts it into the worker's ring, in
    /// one step that takes no memory; answered with the page's number. Counts as a visit. Where it is refused the buffer is
    /// handed back: [`Fault::NoBuild`], [`Fault::BadCount`], [`Fault::RangeDone`], and [`Fault::RingFull`] where this end of the
    /// ring knows no free place.
    pub fn scan_step(
        &mut self,
        range: usize,
        worker: usize,
        image: PageImage,
    ) -> Result<u32, (PageImage, Fault)>
        ensures scanned { IfOk result (λ page. Scans range worker self.old.state page self.new.state) }
        ensures accepted { OnOk result (page_refusal self.old.state range worker ≡ None) }
        ensures works { (building : BuildingValue) → StandsBeside self.old building → StandsBeside self.new building }
        ensures succeeds { put_refusal self.old range worker ≡ None → IsOk result }
        ensures first { (end : PutEnd Copied) → slice_get self.old.pages worker ≡ Some end → length end.sent < 4
            → page_refusal self.old.state range worker ≡ None → IsOk result }
        ensures put { IfOk result (λ page. IsPutTo worker self.old self.new) }
        ensures looked { OnErr result (AllZip PutEndLooked self.old.pages self.new.pages) }
        ensures sides { self.new.sides ≡ self.old.sides }
        ensures unchanged { OnErr result (self.new.state ≡ self.old.state) }
        ensures refused { IfErr result (λ back. put_refusal self.new range worker ≡ Some back.1) }
        ensures handed_back { IfErr result (λ back. back.0 ≡ image) }
    {
        let page = match self.next_page(range, worker) {
            Ok(page) => page,
            Err(fault) => return Err((image, fault)),
        };
        if !self.pages[worker].has_room() {
            return Err((image, Fault::RingFull));
        }
        let mut image = image;
        self.heap.copy_page(page, &mut image);
        let records = self.heap.records();
        let Some(scan) = &mut self.build else {
            unreachable!()
        };
        scan.note(range, worker, page, records);
        let build = scan.number();
        self.pages[worker].put(Copied { build, image });
        Ok(page)
    }

    /// Lets no transaction begin until the build has decided or is given up. [`Fault::NoBuild`]. Takes no memory.
    pub fn fence(&mut self) -> Result<(), Fault>
        ensures fenced { OnOk result (self.new ≡ record self.old { state = fenced self.old.state }) }
        ensures works { (building : BuildingValue) → StandsBeside self.old building → StandsBeside self.new building }
        ensures accepted { OnOk result (IsSome self.old.state.build) }
        ensures refused { IfErr result (λ fault. (fault ≡ Fault.NoBuild) × (self.old.state.build ≡ None)) }
        ensures unchanged { OnErr result (self.new ≡ self.old) }
    {
        if self.build.is_none() {
            return Err(Fault::NoBuild);
        }
        self.heap.set_fence(true);
        Ok(())
    }

    /// Gives the build up, and the fence with it; what stands beside the table is given up by [`Building::give_up`]. [`Fault::NoBuild`].
    /// Takes no memory.
    pub fn abandon(&mut self) -> Result<(), Fault>
        ensures abandoned { OnOk result (self.new ≡ record self.old { state = abandoned self.old.state }) }
        ensures works { OnOk result ((building : BuildingValue) → StandsBeside self.new (given_up building)) }
        ensures accepted { OnOk result (IsSome self.old.state.build) }
        ensures refused { IfErr result (λ fault. (fault ≡ Fault.NoBuild) × (self.old.state.build ≡ None)) }
        ensures unchanged { OnErr result (self.new ≡ self.old) }
    {
        if self.build.is_none() {
            return Err(Fault::NoBuild);
        }
        self.give_up();
        Ok(())
    }
}

ghost use Rattle.std.specs.Prelude.{◌≡◌, ◌<◌, length, [], All, Some, None, IfOk, IfErr, IfSome, OnOk, OnErr, MatchOption, slice_get};
ghost use Rattle.build_events.specs.BuildSteps.{OnBuild};
ghost use Rattle.keybytes.specs.Faults.{RefusedFor};
ghost use Rattle.heap_log.specs.Standing.{live_at, newest_standing};
ghost use Rattle.heap_table.specs.HeapState.{after_visit, row_missing};
ghost use Rattle.heap_table.specs.Pages.{pages_written};
ghost use Rattle.heap_table.specs.Sound.{HoldsFollowLog};
ghost use Rattle.heap_table.specs.TablePairs.{pairs_at_rest};
ghost use Rattle.keybytes.specs.Pairs.{HaveKeysOf, AreInColumnOrder};
ghost use Rattle.table_scan.specs.TableBuilds.{BuildFollows};
ghost use Rattle.live_lemmas.specs.Builds.{value_with_heap};
ghost use Rattle.live_lemmas.specs.Visits.{IsVisited};
ghost use Rattle.building.specs.Rings.{all_sent, put_rings, AreOfBuilds};
ghost use Rattle.live_lemmas.specs.Rings.{ArePutEnds};
ghost use Rattle.live_lemmas.specs.Invariant.{EachPageOnce};
ghost use Rattle.build_events.specs.Soundness.{BuildIsSound};
ghost use Rattle.chunk_list.specs.Left.{queue_items_left};
ghost use Rattle.table_scan.specs.SideFiles.{AreEntriesLeft, EachEntryOnce, EntriesAreOfBuilds, HaveEntryKeys, NoneAhead, side_refusal, side_rings, put_ends};
ghost use Rattle.build_events.specs.CoreState.{abandoned, after_visits, ReadyFollowTable};
ghost use Rattle.ready_indexes.specs.Following.{indexes_of};
ghost use Rattle.ready_indexes.specs.KeyCauses.{KeysAreGuarded};

mod builds;
mod part;
mod sides;
mod switch;
mod turns;
mod workers;
mod writes;

use crate::rest::at_rest;
use crate::unnamed_live::UnnamedLive;
use crate::{Pair, TableRings};
use chunk_list::{ChunkQueue, QueueItems};
use heap_table::Heap;
use keybytes::{Fault, KeySpec, Rid, Row};
use page_workers::PagePutter;
use ready_indexes::ReadyIndexes;
use side_file::{Entry, SideFile};
use std::alloc::Global;
use std::marker::{Model, PhantomData};
use table_scan::{TableScan, reset_all, take_all_left};

/// A table, its ready indexes, each of which has the pairs of the rows that stand and that it takes, which pages the running build copied, and the
/// ends of the rings that the table puts into: all that a lock has to keep once threads share it. What stands beside it is a
/// [`crate::Building`].
pub struct Live<T: TableRings> {
    pub(crate) alloc: Global,
    pub(crate) heap: Heap,
    pub(crate) ready: ReadyIndexes,
    pub(crate) builds: u64,
    pub(crate) build: Option<TableScan>,
    pub(crate) pages: Vec<PagePutter>,
    pub(crate) sides: Vec<SideFile>,
    pub(crate) of: PhantomData<T>,
}

impl<T: TableRings> Drop for Live<T> {
    fn drop(self) {
        let Live {
            alloc: _,
            heap: _,
            ready: _,
            builds: _,
            build: _,
            pages: _,
            sides: _,
            of: _,
        } = self;
    }
}

impl<T: TableRings> Model for Live<T> {
    ghost use Rattle.ready_indexes.specs.Following.{AllFollow, indexes_of};
    ghost use Rattle.live_lemmas.specs.Builds.{LiveValue};
    ghost use Rattle.table_scan.specs.TableBuilds.{BuildFollows};
    ghost use Rattle.building.specs.Rings.{all_sent, AreOfBuilds};
    ghost use Rattle.live_lemmas.specs.Rings.{ArePutEnds, PagesFollow};
    ghost use Rattle.table_scan.specs.SideFiles.{EntriesAreOfBuilds, SidesFollow, put_ends};

    ghost Value = { LiveValue };

    ghost view = { λ live. record {
      state = record { heap = live.heap.state; ready = indexes_of live.ready.indexes; builds = live.builds; build = live.build };
      pages = live.pages.items;
      sides = put_ends live.sides.items;
    } };

    ghost invariant = { λ live. AllFollow live.heap.state.schema live.heap.state.log live.ready.indexes
        × BuildFollows live.heap.state.schema live.heap.state.log live.build
        × SidesFollow live.heap.state.log live.build live.sides.items
        × PagesFollow live.heap.state.schema live.heap.state.log live.builds live.build (all_sent live.pages.items)
        × AreOfBuilds live.builds (all_sent live.pages.items) × ArePutEnds T.pages T.sides live.pages.items (put_ends live.sides.items)
        × EntriesAreOfBuilds live.builds (put_ends live.sides.items) };
}

impl<T: TableRings> Live<T> {
    /// A table with no index and no build, and the ends of its rings.
    pub(crate) fn with_ends(
        alloc: Global,
        heap: Heap,
        pages: Vec<PagePutter>,
        sides: Vec<SideFile>,
    ) -> Live<T>
        requires unused { AreOfBuilds 0 (all_sent pages.items) }
        requires no_entries { EntriesAreOfBuilds 0 (put_ends sides.items) }
        requires ends { ArePutEnds T.pages T.sides pages.items (put_ends sides.items) }
        ensures { result ≡ record {
          state = record { heap = heap.state; ready = []; builds = 0; build = None };
          pages = pages.items;
          sides = put_ends sides.items;
        } }
    {
        Live {
            alloc,
            heap,
            ready: ReadyIndexes::new(alloc),
            builds: 0,
            build: None,
            pages,
            sides,
            of: PhantomData,
        }
    }

    /// The indexes that are ready, in their order.
    pub fn ready(&self) -> &ReadyIndexes
        ensures ready { indexes_of result.now.indexes ≡ self.now.state.ready }
        ensures follow { ReadyFollowTable self.now.state }
        ensures columns { All (λ index. index.spec.kinds ≡ self.now.state.heap.schema) self.now.state.ready }
    {
        &self.ready
    }

    /// Does nothing: its clauses tell what holds of every table between two steps.
    pub fn laws(&self)
        ensures holds { HoldsFollowLog self.now.state.heap }
        ensures ready { ReadyFollowTable self.now.state }
        ensures keys { KeysAreGuarded self.now.state.heap.log self.now.state.ready }
        ensures pages { IfSome self.now.state.build (λ b. EachPageOnce self.now.state.heap.schema self.now.state.heap.log b (all_sent self.now.pages)) }
        ensures entries { IfSome self.now.state.build (λ b. EachEntryOnce self.now.state.heap.log b self.now.sides) }
        ensures build { IfSome self.now.state.build (λ b. BuildIsSound b self.now.state.heap.log) }
    {
        self.heap.laws();
        self.ready.laws();
        let _build = &self.build;
    }

    /// Where the table takes its memory from.
    pub fn allocator(&self) -> Global {
        self.alloc
    }

    /// The rows, in pages, and their log.
    pub fn heap(&self) -> &Heap
        ensures { result.now.state ≡ self.now.state.heap }
    {
        &self.heap
    }

    /// What the table knows of the build that runs: its ranges, and how far each was scanned.
    pub fn build(&self) -> Option<&TableScan>
        ensures build { MatchOption result (self.now.state.build ≡ None) (λ build. self.now.state.build ≡ Some build.now) }
        ensures follows { BuildFollows self.now.state.heap.schema self.now.state.heap.log self.now.state.build }
        ensures fed { IfSome self.now.state.build (NoneAhead self.now.state.heap.log) }
        ensures sides { length self.now.sides ≡ 8 }
    {
        let _sides = &self.sides;
        self.build.as_ref()
    }

    /// The entries of an index's side-file that were not fed yet, in order. [`Fault::NoBuild`] where no build runs,
    /// [`Fault::BadCount`] where the build has no such index.
    pub fn side(&self, index: usize) -> Result<QueueItems<'_, Entry>, Fault>
        ensures ok { IfOk result (λ entries. AreEntriesLeft self.now.state.heap.log self.now.state.build index (queue_items_left entries)) }
        ensures keys { IfOk result (λ entries. HaveEntryKeys self.now.state.build index (queue_items_left entries)) }
        ensures refused { IfErr result (λ fault. side_refusal self.now.state.build index ≡ Some fault) }
        ensures accepted { OnOk result (side_refusal self.now.state.build index ≡ None) }
    {
        self.build_with(index)?;
        Ok(self.sides[index].entries())
    }

    /// What makes the keys of each index that is being built; none where no build runs.
    pub fn specs(&self) -> Option<&[KeySpec]>
        ensures { MatchOption result (self.now.state.build ≡ None) (λ specs. OnBuild self.now.state.build (λ b. specs.now ≡ b.specs)) }
    {
        match &self.build {
            Some(build) => Some(build.specs()),
            None => None,
        }
    }

    /// What makes the keys of an index that is being built. [`Fault::NoBuild`], [`Fault::BadCount`].
    pub fn spec(&self, index: usize) -> Result<&KeySpec, Fault>
        ensures spec { IfOk result (λ spec. OnBuild self.now.state.build (λ b. slice_get b.specs index ≡ Some spec.now)) }
        ensures refused { IfErr result (λ fault. side_refusal self.now.state.build index ≡ Some fault) }
    {
        Ok(self.build_with(index)?.spec(index))
    }

    /// The build that runs, if it has that index.
    pub(crate) fn build_with(&self, index: usize) -> Result<&TableScan, Fault>
        ensures ok { IfOk result (λ build. self.now.state.build ≡ Some build.now) }
        ensures there { IfOk result (λ build. index < length build.now.specs) }
        ensures follows { BuildFollows self.now.state.heap.schema self.now.state.heap.log self.now.state.build }
        ensures sides { length self.now.sides ≡ 8 }
        ensures refused { IfErr result (λ fault. side_refusal self.now.state.build index ≡ Some fault) }
        ensures accepted { OnOk result (side_refusal self.now.state.build index ≡ None) }
    {
        let build = self.build.as_ref().ok_or(Fault::NoBuild)?;
        if index >= build.indexes() {
            return Err(Fault::BadCount);
        }
        let _sides = &self.sides;
        Ok(build)
    }

    /// Gives the build up, if one runs; transactions may begin again then.
    pub fn give_up(&mut self)
        ensures state { self.new ≡ record self.old { state = abandoned self.old.state } }
        ensures none { self.new.state.build ≡ None }
    {
        let mut waste = Vec::new(self.alloc);
        self.give_up_into(&mut waste);
    }

    /// The same with room for what its side-files have left: it can be dropped once no lock is held.
    pub fn give_up_into(&mut self, waste: &mut Vec<ChunkQueue<Entry>>)
        ensures state { self.new ≡ record self.old { state = abandoned self.old.state } }
        ensures none { self.new.state.build ≡ None }
    {
        if self.build.is_none() {
            return;
        }
        take_all_left(self.alloc, &mut self.sides, waste);
        self.heap.set_fence(false);
        self.build = None;
        reset_all(&mut self.sides);
    }

    /// The number of the transaction's newest standing write, which the next [`Live::undo`] takes back.
    pub fn newest(&self, txn: u64) -> Option<usize>
        ensures { result ≡ newest_standing self.now.state.heap.log txn }
    {
        self.heap.newest(txn)
    }

    /// The row that stands at a RID now; [`Fault::NoSuchRow`] where none does. Counts as a visit.
    pub fn get(&mut self, rid: Rid) -> Result<Row, Fault>
        ensures ok { IfOk result (λ row. live_at self.old.state.heap.log rid ≡ Some row) }
        ensures visited { OnOk result (self.new ≡ value_with_heap self.old (after_visit self.old.state.heap)) }
        ensures unchanged { OnErr result (self.new ≡ self.old) }
        ensures refused { IfErr result (RefusedFor (row_missing (live_at self.old.state.heap.log rid))) }
    {
        self.heap.get(rid)
    }

    /// The pairs that an index of this specification would have now, read from the table: one visit a page.
    pub fn rest(&mut self, spec: &KeySpec) -> Result<Vec<Pair>, Fault>
        requires { spec.now.kinds ≡ self.old.state.heap.schema }
        ensures ok { IfOk result (λ pairs. pairs.items ≡ pairs_at_rest spec.now self.old.state.heap.log) }
        ensures keys { IfOk result (λ pairs. HaveKeysOf spec.now pairs.items) }
        ensures order { IfOk result (λ pairs. AreInColumnOrder spec.now pairs.items) }
        ensures visits { OnOk result (self.new ≡ value_with_heap self.old (after_visits self.old.state.heap (pages_written self.old.state.heap.log))) }
        ensures rows { self.new ≡ value_with_heap self.old (record self.old.state.heap { visits = self.new.state.heap.visits }) }
        ensures read { IsVisited (pages_written self.old.state.heap.log) self.old.state.heap self.new.state.heap }
        ensures memory { IfErr result (λ fault. fault ≡ Fault.Memory) }
    {
        at_rest(&mut self.heap, spec)
    }

    /// Takes its name off. Takes no memory.
    pub fn unname(self) -> UnnamedLive
        ensures live { result ≡ self }
        ensures pages { put_rings result.pages ≡ T.pages }
        ensures sides { side_rings result.sides ≡ T.sides }
    {
        let Live {
            alloc,
            heap,
            ready,
            builds,
            build,
            pages,
            sides,
            of: _,
        } = self;
        UnnamedLive {
            alloc,
            heap,
            ready,
            builds,
            build,
            pages,
            sides,
        }
    }
}

ghost use Rattle.std.specs.Prelude.{◌≡◌, ◌≤◌, Some, None, vec_len, OnOk, OnErr, IfOk, IfErr};
ghost use Rattle.keybytes.specs.Faults.{RefusedFor};
ghost use Rattle.heap_log.specs.Standing.{live_at};
ghost use Rattle.heap_table.specs.HeapState.{after_visit, row_missing};
ghost use Rattle.build_events.specs.BuildSteps.{OnBuild};
ghost use Rattle.build_events.specs.CoreState.{with_heap};
ghost use Rattle.build_events.specs.Steps.{HasPageCause, Step};
ghost use Rattle.build_events.specs.Verdicts.{HaveSharedKeys};
ghost use Rattle.leased_core.specs.Leasing.{EndsBuild, FailsToStart, IsHandedBack, KeepsBuild, StartsOver, WantedLeasedPage};
ghost use Rattle.kept_table.specs.Counts.{HasLaws};
ghost use Rattle.kept_table.specs.KeptTables.{new_table};
ghost use Rattle.kept_table.specs.Progresses.{pages_copied, pages_read};

use crate::page_count::PageCount;
use builder_core::{Core, Event, Parts, Plan, Reply, TableRings};
use heap_log::Verdicts;
use keybytes::{Fault, Rid, Row};
use leased_core::{HandedBack, LeasedCore};
use prefix_spool::SpoolOfKind;
use run_spool::SpoolChoice;
use std::alloc::Global;
use std::marker::Model;

/// A [`LeasedCore`] that counts the pages of its build. Contracts see the state of the core.
///
/// It is no `Drop`: [`Counted::close`] gives the pages of the spools back.
pub(crate) struct Counted<T: TableRings> {
    pub(crate) leased: LeasedCore<T>,
    pub(crate) pages: PageCount,
}

impl<T: TableRings> Model for Counted<T> {
    ghost use Rattle.build_events.specs.CoreState.{CoreState};
    ghost use Rattle.kept_table.specs.Counts.{Counts, HasLaws};

    ghost Value = { CoreState };

    ghost view = { λ counted. counted.leased };

    ghost invariant = { λ counted. Counts counted.pages counted.leased × HasLaws counted.leased };
}

impl<T: TableRings> Counted<T> {
    /// A table with no build running.
    pub(crate) fn new(alloc: Global, parts: Parts) -> Counted<T>
        requires pages { parts.pages ≡ T.pages }
        requires sides { parts.sides ≡ T.sides }
        ensures { result ≡ new_table parts.heap }
    {
        let (live, ends) = parts.open::<T>();
        Counted {
            leased: LeasedCore::new(alloc, live, ends),
            pages: PageCount { all: 0, copied: 0 },
        }
    }

    /// Gives up what is left of a build, and hands its pool back.
    pub(crate) fn close(self) -> HandedBack
        ensures { IsHandedBack self result }
    {
        let Counted { leased, pages: _ } = self;
        leased.close()
    }

    /// The table and its build, to be looked at.
    pub(crate) fn core(&self) -> &Core<SpoolOfKind, T>
        ensures { result.now ≡ self.now }
    {
        self.leased.core()
    }

    /// Does nothing: its clause tells what is so of each build that runs.
    pub(crate) fn laws(&self)
        ensures { HasLaws self.now }
    {
        let _kept = &self.pages;
    }

    /// How many pages the build that runs reads, and how many it has copied; 0 where none runs.
    pub(crate) fn pages(&self) -> PageCount
        ensures all { result.all ≡ pages_read self.now.live.build }
        ensures copied { result.copied ≡ pages_copied self.now.live.build }
    {
        if self.leased.core().is_building() {
            self.pages
        } else {
            PageCount { all: 0, copied: 0 }
        }
    }

    /// Does one event that neither starts a build nor ends one.
    pub(crate) fn step(&mut self, event: Event) -> Reply
        requires { KeepsBuild event }
        ensures step { Step self.old event result self.new }
        ensures full { HasPageCause WantedLeasedPage self.old event result }
    {
        let reply = self.leased.step(event);
        self.pages = self.pages.after(&reply);
        reply
    }

    /// Starts a build over new spools of the kinds that are chosen, each with its quota of pages, and answers how many pages of the table it reads.
    /// Where that is refused the spools are given up again.
    pub(crate) fn start(
        &mut self,
        choice: SpoolChoice,
        quota: usize,
        plan: Plan,
    ) -> Result<u32, Fault>
        requires resting { self.old.live.build ≡ None }
        requires workers { plan.workers ≤ 16 }
        requires indexes { vec_len plan.specs ≤ 8 }
        requires quota { quota ≤ 1024 }
        ensures started { IfOk result (λ pages. StartsOver choice quota plan self.old (Reply.Started pages) self.new) }
        ensures refused { IfErr result (FailsToStart choice quota plan self.old) }
        ensures unchanged { OnErr result (self.new ≡ self.old) }
    {
        let started = self.leased.start(choice, quota, plan);
        self.pages = self.pages.at_start(&started);
        started
    }

    /// Tries to bring the build's indexes into use, and answers with the number of the log record and the verdicts. Once that is decided the spools are given
    /// up.
    pub(crate) fn switch(&mut self) -> Result<(usize, Verdicts), Fault>
        ensures decided { IfOk result (λ told. EndsBuild Event.Switch (Reply.Switched told.0 told.1) self.old self.new) }
        ensures keys { IfOk result (λ told. OnBuild self.old.live.build (λ b. HaveSharedKeys b.specs told.1)) }
        ensures refused { IfErr result (λ fault. Step self.old Event.Switch (Reply.Refused fault) self.new) }
    {
        match self.leased.switch() {
            Ok((number, verdicts, _back)) => Ok((number, verdicts)),
            Err(fault) => Err(fault),
        }
    }

    /// Gives the build up, with its spools.
    pub(crate) fn abandon(&mut self) -> Result<(), Fault>
        ensures abandoned { OnOk result (EndsBuild Event.Abandon Reply.Abandoned self.old self.new) }
        ensures refused { IfErr result (λ fault. Step self.old Event.Abandon (Reply.Refused fault) self.new) }
    {
        match self.leased.abandon() {
            Ok(_back) => Ok(()),
            Err(fault) => Err(fault),
        }
    }

    /// The row that stands at a RID now; [`Fault::NoSuchRow`] where none does. Counts as a visit.
    pub(crate) fn get(&mut self, rid: Rid) -> Result<Row, Fault>
        ensures ok { IfOk result (λ row. live_at self.old.live.heap.log rid ≡ Some row) }
        ensures visited { OnOk result (self.new ≡ with_heap self.old (after_visit self.old.live.heap)) }
        ensures unchanged { OnErr result (self.new ≡ self.old) }
        ensures refused { IfErr result (RefusedFor (row_missing (live_at self.old.live.heap.log rid))) }
    {
        self.leased.get(rid)
    }
}

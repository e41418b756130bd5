ghost use Rattle.std.specs.Prelude.{◌≡◌, ◌≤◌, Some, None, map, vec_len, OnOk, OnErr, IfOk, IfErr};
ghost use Rattle.keybytes.specs.Faults.{RefusedFor};
ghost use Rattle.keybytes.specs.Pairs.{HaveKeysOf};
ghost use Rattle.heap_log.specs.Standing.{live_at};
ghost use Rattle.heap_table.specs.HeapState.{after_visit, row_missing};
ghost use Rattle.heap_table.specs.TablePairs.{pairs_at_rest};
ghost use Rattle.build_events.specs.CoreState.{opening, with_heap};
ghost use Rattle.build_events.specs.BuildSteps.{OnBuild};
ghost use Rattle.build_events.specs.Steps.{AnswersBy, HasPageCause, Step};
ghost use Rattle.build_events.specs.Verdicts.{HaveSharedKeys};
ghost use Rattle.leased_core.specs.Leasing.{AreLeased, EndsBuild, FailsToStart, IsBackOf, IsHandedBack, KeepsBuild, OnlyVisits, StartsOver, WantedLeasedPage};
ghost use Rattle.leased_core.specs.Leasing.{no_spools, stake_in};

use crate::handed_back::HandedBack;
use crate::leases::Leases;
use builder_core::{Core, Ends, Event, Live, Plan, Reply, TableRings};
use heap_log::Verdicts;
use heap_table::Undone;
use keybytes::{Fault, KeySpec, Pair, Rid, Row};
use prefix_spool::SpoolOfKind;
use run_spool::SpoolChoice;
use std::alloc::Global;
use std::marker::Model;

/// A table with the build that may be running, and the pages that the spools of this build lease. While no build runs there are no
/// spools. Contracts see the state of the core.
///
/// It is no `Drop`: [`LeasedCore::close`] gives the pages back.
pub struct LeasedCore<T: TableRings> {
    pub(crate) alloc: Global,
    pub(crate) core: Core<SpoolOfKind, T>,
    pub(crate) leases: Option<Leases>,
}

impl<T: TableRings> Model for LeasedCore<T> {
    ghost use Rattle.build_events.specs.CoreState.{CoreState};
    ghost use Rattle.leased_core.specs.Leasing.{LeasesFollow};

    ghost Value = { CoreState };

    ghost view = { λ leased. leased.core };

    ghost invariant = { λ leased. LeasesFollow leased.leases leased.core };
}

impl<T: TableRings> LeasedCore<T> {
    /// The table, with no build running.
    pub fn new(alloc: Global, live: Live<T>, ends: Ends<T>) -> LeasedCore<T>
        ensures { result ≡ opening live.state no_spools }
    {
        LeasedCore {
            alloc,
            core: Core::new(live, ends, Vec::new(alloc)),
            leases: None,
        }
    }

    /// Gives up what is left of a build, and hands its pool back.
    pub fn close(self) -> HandedBack
        ensures { IsHandedBack self result }
    {
        let LeasedCore {
            alloc: _alloc,
            core,
            leases,
        } = self;
        let (_, _, spools) = core.into_live();
        reclaim(leases, spools)
    }

    /// The table and its build, to be looked at.
    pub fn core(&self) -> &Core<SpoolOfKind, T>
        ensures { result.now ≡ self.now }
    {
        &self.core
    }

    /// The next transaction begins; answered with its number.
    pub fn begin(&mut self) -> Result<u64, Fault>
        ensures { AnswersBy Reply.Begun self.old Event.Begin result self.new }
    {
        self.core.begin()
    }

    /// The transaction inserts a row; answered with the record's number and the RID.
    pub fn insert(&mut self, txn: u64, row: Row) -> Result<(usize, Rid), Fault>
        ensures { AnswersBy (λ w. Reply.Written w.0 w.1) self.old (Event.Insert txn row) result self.new }
    {
        self.core.insert(txn, row)
    }

    /// The transaction's newest standing write is undone.
    pub fn undo(&mut self, txn: u64) -> Result<Undone, Fault>
        ensures { AnswersBy (λ undone. Reply.Undone undone.number undone.left) self.old (Event.Undo txn) result self.new }
    {
        self.core.undo(txn)
    }

    /// The transaction ends, and keeps its writes; answered with the record's number.
    pub fn commit(&mut self, txn: u64) -> Result<usize, Fault>
        ensures { AnswersBy Reply.Committed self.old (Event.Commit txn) result self.new }
    {
        self.core.commit(txn)
    }

    /// Does one event that neither starts a build nor ends one.
    pub fn step(&mut self, event: Event) -> Reply
        requires { KeepsBuild event }
        ensures step { Step self.old event result self.new }
        ensures full { HasPageCause WantedLeasedPage self.old event result }
    {
        self.core.step(event)
    }

    /// Starts a build over new spools of the kinds that are chosen, each with its quota of pages, and answers how many pages of the
    /// table it reads. Where that is refused the spools are given up again.
    pub fn start(&mut self, choice: SpoolChoice, quota: usize, plan: Plan) -> Result<u32, Fault>
        requires resting { self.old.live.build ≡ None }
        requires workers { plan.workers ≤ 16 }
        requires indexes { vec_len plan.specs ≤ 8 }
        requires quota { quota ≤ 1024 }
        ensures started { IfOk result (λ pages. StartsOver choice quota plan self.old (Reply.Started pages) self.new) }
        ensures refused { IfErr result (FailsToStart choice quota plan self.old) }
        ensures unchanged { OnErr result (self.new ≡ self.old) }
    {
        let spools = plan.workers * plan.specs.len();
        let (leases, spools) = Leases::new(self.alloc, choice, spools, quota)?;
        let _none = self.core.exchange_spools(spools);
        match self.core.start(&plan) {
            Ok(pages) => {
                self.leases = Some(leases);
                Ok(pages)
            }
            Err(fault) => {
                let spools = self.core.exchange_spools(Vec::new(self.alloc));
                let _whole = leases.reclaim(spools);
                Err(fault)
            }
        }
    }

    /// Tries to bring the build's indexes into use. Once that is decided the spools are given up: behind the number of the log record
    /// and the verdicts stands their pool.
    pub fn switch(&mut self) -> Result<(usize, Verdicts, HandedBack), Fault>
        ensures decided { IfOk result (λ told. EndsBuild Event.Switch (Reply.Switched told.0 told.1) self.old self.new) }
        ensures keys { IfOk result (λ told. OnBuild self.old.live.build (λ b. HaveSharedKeys b.specs told.1)) }
        ensures back { IfOk result (λ told. IsHandedBack self.old told.2) }
        ensures refused { IfErr result (λ fault. Step self.old Event.Switch (Reply.Refused fault) self.new) }
    {
        let (number, verdicts) = self.core.switch_in()?;
        let back = end_build(self.alloc, &mut self.core, self.leases.take());
        Ok((number, verdicts, back))
    }

    /// Gives the build up, with its spools, and hands their pool back.
    pub fn abandon(&mut self) -> Result<HandedBack, Fault>
        ensures abandoned { OnOk result (EndsBuild Event.Abandon Reply.Abandoned self.old self.new) }
        ensures back { IfOk result (IsHandedBack self.old) }
        ensures refused { IfErr result (λ fault. Step self.old Event.Abandon (Reply.Refused fault) self.new) }
    {
        self.core.abandon()?;
        Ok(end_build(self.alloc, &mut self.core, self.leases.take()))
    }

    /// The row that stands at a RID now; [`Fault::NoSuchRow`] where none does. Counts as a visit.
    pub fn get(&mut self, rid: Rid) -> Result<Row, Fault>
        ensures ok { IfOk result (λ row. live_at self.old.live.heap.log rid ≡ Some row) }
        ensures visited { OnOk result (self.new ≡ with_heap self.old (after_visit self.old.live.heap)) }
        ensures unchanged { OnErr result (self.new ≡ self.old) }
        ensures refused { IfErr result (RefusedFor (row_missing (live_at self.old.live.heap.log rid))) }
    {
        self.core.get(rid)
    }

    /// The pairs that an index of this specification would have now, in order.
    pub fn rest(&mut self, spec: &KeySpec) -> Result<Vec<Pair>, Fault>
        requires { spec.now.kinds ≡ self.old.live.heap.schema }
        ensures ok { IfOk result (λ pairs. pairs.items ≡ pairs_at_rest spec.now self.old.live.heap.log) }
        ensures keys { IfOk result (λ pairs. HaveKeysOf spec.now pairs.items) }
        ensures rows { OnlyVisits self.old self.new }
        ensures memory { IfErr result (λ fault. fault ≡ Fault.Memory) }
    {
        self.core.rest(spec)
    }
}

/// Takes the spools out of the core and gives them up, and hands their pool back.
fn end_build<T: TableRings>(
    alloc: Global,
    core: &mut Core<SpoolOfKind, T>,
    leases: Option<Leases>,
) -> HandedBack
    requires { AreLeased leases core.old.spools.stakes }
    ensures core { core.new ≡ opening core.old.live no_spools }
    ensures pages { IsBackOf leases result }
{
    let spools = core.exchange_spools(Vec::new(alloc));
    reclaim(leases, spools)
}

/// Gives spools up, and hands their pool back. Where nothing is leased there is none.
fn reclaim(leases: Option<Leases>, spools: Vec<SpoolOfKind>) -> HandedBack
    requires { AreLeased leases (map stake_in spools.items) }
    ensures { IsBackOf leases result }
{
    match leases {
        Some(leases) => {
            let (pool, missing) = leases.reclaim(spools);
            HandedBack {
                pool: Some(pool),
                missing,
            }
        }
        None => HandedBack {
            pool: None,
            missing: 0,
        },
    }
}

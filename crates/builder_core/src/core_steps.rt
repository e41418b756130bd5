ghost use Rattle.std.specs.Prelude.{◌≡◌, ℕ, List, [], All, map, Some, None, is_some, IfOk, IfErr, OnOk, OnErr, MatchResult, MatchOption, slice_get, IfSome};
ghost use Rattle.keybytes.specs.Faults.{RefusedFor};
ghost use Rattle.heap_log.specs.Standing.{live_at};
ghost use Rattle.heap_table.specs.HeapState.{row_missing, after_visit};
ghost use Rattle.heap_table.specs.Pages.{pages_written};
ghost use Rattle.keybytes.specs.Pairs.{HaveKeysOf, AreInColumnOrder};
ghost use Rattle.heap_table.specs.TablePairs.{pairs_at_rest};
ghost use Rattle.build_events.specs.CoreState.{opening, abandoned, after_visits, with_heap, ReadyFollowTable};
ghost use Rattle.chunk_list.specs.Left.{queue_items_left};
ghost use Rattle.table_scan.specs.SideFiles.{AreEntriesLeft, HaveEntryKeys, side_refusal};
ghost use Rattle.heap_log.specs.declared.outcome.Outcome.{Outcome};
ghost use Rattle.build_events.specs.BuildSteps.{OnBuild};
ghost use Rattle.build_events.specs.Steps.{Step, HasPageCause, Answers};
ghost use Rattle.build_events.specs.Verdicts.{HaveSharedKeys};
ghost use Rattle.live_lemmas.specs.FullSpools.{IfSpooling, NoPageOnlyIfFull, WantedPage};
ghost use Rattle.building.specs.Holding.{spools_in};
ghost use Rattle.build_events.specs.Soundness.{BuildIsSound};
ghost use Rattle.run_spool.specs.Spools.{IsFullIntact};

use crate::{Building, Ends, Event, Live, Pair, Plan, ReadyIndex, Reply, TableRings};
use chunk_list::QueueItems;
use heap_table::{PageImage, Undone};
use keybytes::{Fault, KeySpec, Rid, Row};
use run_spool::Spool;
use side_file::Entry;
use std::marker::Model;

/// A table with its ready indexes, and the work of the index build that may be running, with the spools for its pairs. Each ready
/// index has the pairs of the rows that stand and that it takes.
///
/// It is no `Drop`: whoever has it takes table and spools out again by [`Core::into_live`].
pub struct Core<S: Spool, T: TableRings> {
    pub(crate) live: Live<T>,
    pub(crate) building: Building<S, T>,
}

impl<S: Spool, T: TableRings> Model for Core<S, T> {
    ghost use Rattle.build_events.specs.CoreState.{CoreState};
    ghost use Rattle.live_lemmas.specs.Builds.{core_state, StandsBeside};

    ghost Value = { CoreState };

    ghost view = { λ core. core_state core.live core.building };

    ghost invariant = { λ core. StandsBeside core.live core.building };
}

impl<S: Spool, T: TableRings> Core<S, T> {
    /// The table, with no build running: one that runs in it is abandoned. The next start takes the spools, one for each worker and
    /// index of its build: that of worker `w` and index `i` stands at `w` times the number of indexes, plus `i`.
    pub fn new(live: Live<T>, ends: Ends<T>, spools: Vec<S>) -> Core<S, T>
        ensures { result ≡ opening live.state (spools_in S.runs S.open_run S.stake spools.items) }
    {
        let mut live = live;
        live.give_up();
        Core {
            live,
            building: Building::new(ends, spools),
        }
    }

    /// Gives the table with its ready indexes back, the ends of its rings, and the spools, each of which was ended; a running build is
    /// abandoned. Takes no memory.
    pub fn into_live(self) -> (Live<T>, Ends<T>, Vec<S>)
        ensures live { result.0.state ≡ abandoned self.live }
        ensures ended { All S.ended result.2.items }
        ensures stakes { map S.stake result.2.items ≡ self.spools.stakes }
    {
        let Core { mut live, building } = self;
        live.give_up();
        let (ends, spools) = building.into_parts();
        (live, ends, spools)
    }

    /// Puts other spools in the place of those that are there, which are ended and handed back; a running build is abandoned. So it
    /// is a new core over the same table. Takes no memory.
    pub fn exchange_spools(&mut self, spools: Vec<S>) -> Vec<S>
        ensures core { self.new ≡ opening self.old.live (spools_in S.runs S.open_run S.stake spools.items) }
        ensures ended { All S.ended result.items }
        ensures stakes { map S.stake result.items ≡ self.old.spools.stakes }
    {
        self.live.give_up();
        self.building.exchange(spools)
    }

    /// The spools that were handed in, while no build runs. Once a build was given them and has ended, by a switch or by giving it up,
    /// each of them is ended, with every leased page back.
    pub fn spools(&self) -> &[S]
        ensures stakes { self.now.live.build ≡ None → map S.stake result.now ≡ self.now.spools.stakes }
        ensures ended { self.now.live.build ≡ None → self.now.spools.left ≡ [] → All S.ended result.now }
    {
        self.building.spools()
    }

    /// The table with its ready indexes and what it knows of the build that runs, to be read.
    pub fn live(&self) -> &Live<T>
        ensures { result.now.state ≡ self.now.live }
    {
        &self.live
    }

    /// Whether a build runs, a spoiled one too.
    pub fn is_building(&self) -> bool
        ensures { result ≡ is_some self.now.live.build }
    {
        self.live.specs().is_some()
    }

    /// The ready index of that number, from 0; [`Fault::BadCount`] where there is none.
    pub fn ready(&self, number: usize) -> Result<&ReadyIndex, Fault>
        ensures index { MatchResult result
            (λ it. slice_get self.now.live.ready number ≡ Some it.now.index)
            (λ fault. slice_get self.now.live.ready number ≡ None) }
        ensures keys { IfOk result (λ index. HaveKeysOf index.now.index.spec index.now.index.pairs) }
        ensures order { IfOk result (λ index. AreInColumnOrder index.now.index.spec index.now.index.pairs) }
        ensures refused { IfErr result (λ fault. fault ≡ Fault.BadCount) }
        ensures follow { ReadyFollowTable self.now.live }
    {
        let index = self.live.ready().get(number).ok_or(Fault::BadCount)?;
        // It tells their order.
        let _tree = index.tree();
        Ok(index)
    }

    /// The pairs that an index of this specification would have now, read from the table: one visit a page.
    pub fn rest(&mut self, spec: &KeySpec) -> Result<Vec<Pair>, Fault>
        requires { spec.now.kinds ≡ self.old.live.heap.schema }
        ensures ok { IfOk result (λ pairs. pairs.items ≡ pairs_at_rest spec.now self.old.live.heap.log) }
        ensures keys { IfOk result (λ pairs. HaveKeysOf spec.now pairs.items) }
        ensures order { IfOk result (λ pairs. AreInColumnOrder spec.now pairs.items) }
        ensures visits { OnOk result (self.new ≡ with_heap self.old (after_visits self.old.live.heap (pages_written self.old.live.heap.log))) }
        ensures rows { self.new ≡ with_heap self.old (record self.old.live.heap { visits = self.new.live.heap.visits }) }
        ensures memory { IfErr result (λ fault. fault ≡ Fault.Memory) }
    {
        self.live.rest(spec)
    }

    /// The row that stands at a RID now; [`Fault::NoSuchRow`] where none does. Counts as a visit.
    pub fn get(&mut self, rid: Rid) -> Result<Row, Fault>
        ensures ok { IfOk result (λ row. live_at self.old.live.heap.log rid ≡ Some row) }
        ensures visited { OnOk result (self.new ≡ with_heap self.old (after_visit self.old.live.heap)) }
        ensures unchanged { OnErr result (self.new ≡ self.old) }
        ensures refused { IfErr result (RefusedFor (row_missing (live_at self.old.live.heap.log rid))) }
    {
        self.live.get(rid)
    }

    /// The entries of an index's side-file that were not fed yet, in order. [`Fault::NoBuild`] where no build runs,
    /// [`Fault::BadCount`] where the build has no such index.
    pub fn side(&self, index: usize) -> Result<QueueItems<'_, Entry>, Fault>
        ensures ok { IfOk result (λ entries. AreEntriesLeft self.now.live.heap.log self.now.live.build index (queue_items_left entries)) }
        ensures keys { IfOk result (λ entries. HaveEntryKeys self.now.live.build index (queue_items_left entries)) }
        ensures refused { IfErr result (λ fault. side_refusal self.now.live.build index ≡ Some fault) }
        ensures accepted { OnOk result (side_refusal self.now.live.build index ≡ None) }
    {
        self.live.side(index)
    }

    /// Does one event. A refused one changes nothing, but for want of memory or of a page in a digest, a seal or a load, which
    /// spoils the build, and for want of memory in an apply or a switch, which leaves the entries before it applied.
    pub fn step(&mut self, event: Event) -> Reply
        ensures step { Step self.old event result self.new }
        ensures stakes { self.new.spools.stakes ≡ self.old.spools.stakes }
        ensures keys { (number : ℕ) (verdicts : List Outcome) → result ≡ Reply.Switched number verdicts
            → OnBuild self.old.live.build (λ b. HaveSharedKeys b.specs verdicts) }
        ensures full { HasPageCause (WantedPage (IsFullIntact S.is_full S.is_intact S.runs) S.runs S.open_run S.stake) self.old event result }
        ensures ready { ReadyFollowTable self.new.live }
        ensures sound { IfSome self.new.live.build (λ b. BuildIsSound b self.new.live.heap.log) }
    {
        let answer = self.attempt_own(event);
        self.reply(answer)
    }

    /// Does one event that it is lent. A row is copied only once nothing refuses it.
    pub(crate) fn answer(&mut self, event: &Event) -> Reply
        ensures step { Step self.old event.now result self.new }
        ensures full { HasPageCause (WantedPage (IsFullIntact S.is_full S.is_intact S.runs) S.runs S.open_run S.stake) self.old event.now result }
        ensures ready { ReadyFollowTable self.new.live }
        ensures sound { IfSome self.new.live.build (λ b. BuildIsSound b self.new.live.heap.log) }
    {
        let answer = self.attempt(event);
        self.reply(answer)
    }

    /// The reply of an answer.
    fn reply(&self, answer: Result<Reply, Fault>) -> Reply
        ensures reply { MatchResult answer (λ reply. result ≡ reply) (λ fault. result ≡ Reply.Refused fault) }
        ensures ready { ReadyFollowTable self.now.live }
        ensures sound { IfSome self.now.live.build (λ b. BuildIsSound b self.now.live.heap.log) }
    {
        let _follow = self.live.ready();
        self.live.laws();
        match answer {
            Ok(reply) => reply,
            Err(fault) => Reply::Refused { fault },
        }
    }

    /// Does one event of its own, or tells why not: the row of a write is handed on.
    fn attempt_own(&mut self, event: Event) -> Result<Reply, Fault>
        ensures answers { Answers self.old event result self.new }
        ensures full { IfSpooling event (λ turn worker. IfErr result
            (NoPageOnlyIfFull (IsFullIntact S.is_full S.is_intact S.runs) S.runs S.open_run S.stake turn self.old worker)) }
    {
        match event {
            Event::Insert { txn, row } => {
                let (number, rid) = self.insert(txn, row)?;
                Ok(Reply::Written { number, rid })
            }
            Event::Update { txn, rid, row } => {
                let (number, rid) = self.update(txn, rid, row)?;
                Ok(Reply::Written { number, rid })
            }
            other => self.attempt(&other),
        }
    }

    /// Does one event that it is lent, or tells why not.
    fn attempt(&mut self, event: &Event) -> Result<Reply, Fault>
        ensures answers { Answers self.old event.now result self.new }
        ensures full { IfSpooling event.now (λ turn worker. IfErr result
            (NoPageOnlyIfFull (IsFullIntact S.is_full S.is_intact S.runs) S.runs S.open_run S.stake turn self.old worker)) }
    {
        match event {
            Event::Begin => Ok(Reply::Begun { txn: self.begin()? }),
            Event::Insert { txn, row } => {
                let (number, rid) = self.insert_lent(*txn, row)?;
                Ok(Reply::Written { number, rid })
            }
            Event::Update { txn, rid, row } => {
                let (number, rid) = self.update_lent(*txn, *rid, row)?;
                Ok(Reply::Written { number, rid })
            }
            Event::Delete { txn, rid } => {
                let (number, rid) = self.delete(*txn, *rid)?;
                Ok(Reply::Written { number, rid })
            }
            Event::Undo { txn } => {
                let Undone { number, left } = self.undo(*txn)?;
                Ok(Reply::Undone { number, left })
            }
            Event::Commit { txn } => Ok(Reply::Committed {
                number: self.commit(*txn)?,
            }),
            Event::Start { plan } => Ok(Reply::Started {
                pages: self.start(plan)?,
            }),
            Event::Scan { range, worker } => Ok(Reply::Scanned {
                page: self.scan(*range, *worker)?,
            }),
            Event::Digest { worker } => Ok(Reply::Digested {
                images: self.digest(*worker)?,
            }),
            Event::Seal { worker } => Ok(Reply::Sealed {
                images: self.seal(*worker)?,
            }),
            Event::Load { index } => Ok(Reply::Loaded {
                pairs: self.load(*index)?,
            }),
            Event::Feed { index, most } => Ok(Reply::Fed {
                entries: self.feed(*index, *most)?,
            }),
            Event::Apply { index, most } => Ok(Reply::Applied {
                entries: self.apply(*index, *most)?,
            }),
            Event::Fence => {
                self.fence()?;
                Ok(Reply::FenceSet)
            }
            Event::Switch => {
                let (number, verdicts) = self.switch_in()?;
                Ok(Reply::Switched { number, verdicts })
            }
            Event::Abandon => {
                self.abandon()?;
                Ok(Reply::Abandoned)
            }
        }
    }
}

//! What stands beside a table.
ghost use Rattle.std.specs.Prelude.{◌≡◌, ◌⊎◌, ℕ, ◌+◌, ◌*◌, ◌^◌, ◌<◌, ◌≤◌, OnOk, [], All, length, map, slice_get, true, false, None, Some, IsSome, IfSome, IfOk, IfErr, OnErr, MatchOption};
ghost use Rattle.std.specs.List.{list_all};
ghost use Rattle.page_workers.specs.SpoolValue.{spool_value};
ghost use Rattle.building.specs.BuildingValue.{fresh, given_up, intakes, IsUnloaded};
ghost use Rattle.building.specs.Holding.{all_spools, workers_spools, spools_state};
ghost use Rattle.building.specs.Keeping.{AreWorkers, KeepsWork};
ghost use Rattle.catch_up.specs.Built.{told_to};
ghost use Rattle.building.specs.Equipped.{HasOwnSpools, HasRoomFor, IsFresh, IsNewMaker};
ghost use Rattle.building.specs.Working.{CanApply, CanHandOver, CanLoad, CountsNoMore, HasApplied, HasHandedOver, HasLoaded, HasSeenEntries, IsTakingEntries, LoadStopped, MayTakeMemoryFor, StopsApplying};

use crate::ends::Ends;
use crate::equipment::{Equipment, equip};
use crate::index_work::IndexWork;
use crate::returning::{bring_home, take_back};
use crate::rings::laws_of;
use crate::sorted::sorted_index;
use crate::work::Work;
use catch_up::apply;
use keybytes::Fault;
use page_workers::{Intake, TableRings, Worker};
use run_spool::{Spool, are_empty};
use side_file::EntryEnd;
use std::alloc::Global;
use std::marker::{Model, PhantomData};
use std::mem::replace;

/// What no lock keeps: the workers of the build that runs, its work, and the spools for its pairs.
///
/// It is no `Drop`: whoever has it takes the spools out again, and they are ended then.
pub struct Building<S: Spool, T: TableRings> {
    /// The workers of the build, numbered from 0.
    pub(crate) workers: Vec<Worker<S>>,
    /// The intakes of the rings that have no worker, those behind the workers'.
    pub(crate) idle: Vec<Intake>,
    /// The ends of the side-files' rings that take, one for each index that a build may have.
    pub(crate) side_ends: Vec<EntryEnd>,
    /// The spools that no worker has.
    pub(crate) spools: Vec<S>,
    /// Whether a build was given the spools; they are then not left for a next one.
    pub(crate) given: bool,
    pub(crate) work: Option<Work>,
    pub(crate) of: PhantomData<T>,
}

impl<S: Spool, T: TableRings> Model for Building<S, T> {
    ghost use Rattle.building.specs.BuildingValue.{BuildingValue, intakes};

    ghost Value = { BuildingValue };

    ghost use Rattle.std.specs.Prelude.{◌≡◌, ◌≤◌, [], length, map, true, false, All, None, vec_capacity};
    ghost use Rattle.page_workers.specs.SpoolValue.{spool_value};
    ghost use Rattle.building.specs.Holding.{all_spools};
    ghost use Rattle.building.specs.Keeping.{AreNumbered, KeepsWork};
    ghost use Rattle.building.specs.Rings.{AreTakeEnds};

    ghost view = { λ building. record {
      workers = building.workers.items;
      idle = building.idle.items;
      sides = building.side_ends.items;
      spools = map (spool_value S.runs S.open_run S.stake) building.spools.items;
      given = building.given;
      work = building.work;
    } };

    ghost invariant = { λ building. AreTakeEnds T.pages T.sides (intakes building.workers.items building.idle.items) building.side_ends.items
        × (16 ≤ vec_capacity building.idle)
        × (length (all_spools building.workers.items (map (spool_value S.runs S.open_run S.stake) building.spools.items)) ≤ vec_capacity building.spools)
        × (building.work ≡ None → building.workers.items ≡ [])
        × (building.given ≡ false → building.work ≡ None)
        × (building.given ≡ true → building.work ≡ None → All S.ended building.spools.items)
        × KeepsWork building.workers.items building.side_ends.items (map (spool_value S.runs S.open_run S.stake) building.spools.items)
        building.work
        × AreNumbered building.workers.items };
}

impl<S: Spool, T: TableRings> Building<S, T> {
    /// No build is at work, and the spools are left for the next one. Takes no memory.
    pub fn new(ends: Ends<T>, spools: Vec<S>) -> Building<S, T>
        ensures { result ≡ record {
          workers = [];
          idle = ends.intakes;
          sides = ends.sides;
          spools = map (spool_value S.runs S.open_run S.stake) spools.items;
          given = false;
          work = None;
        } }
    {
        let Ends {
            intakes,
            side_ends,
            of,
        } = ends;
        Building {
            workers: Vec::new(*spools.allocator()),
            idle: intakes,
            side_ends,
            spools,
            given: false,
            work: None,
            of,
        }
    }

    /// Hands the ends of the rings back, and the spools, ended and in the order in which they were handed in; the work of a build that
    /// runs is given up. Takes no memory.
    pub fn into_parts(self) -> (Ends<T>, Vec<S>)
        ensures ends { result.0 ≡ record { intakes = intakes self.workers self.idle; sides = self.sides } }
        ensures ended { All S.ended result.1.items }
        ensures stakes { map S.stake result.1.items ≡ map (λ spool. spool.stake) (all_spools self.workers self.spools) }
    {
        let Building {
            mut workers,
            mut idle,
            side_ends,
            mut spools,
            given: _,
            work: _,
            of,
        } = self;
        take_back(&mut workers, &mut spools, &mut idle);
        let ends = Ends {
            intakes: idle,
            side_ends,
            of,
        };
        (ends, spools)
    }

    /// Puts other spools in the place of those that are there, which are ended and handed back; the work of a build that runs is
    /// given up. Takes no memory.
    pub fn exchange(&mut self, spools: Vec<S>) -> Vec<S>
        ensures left { self.new ≡ record self.old {
          workers = [];
          idle = intakes self.old.workers self.old.idle;
          spools = map (spool_value S.runs S.open_run S.stake) spools.items;
          given = false;
          work = None;
        } }
        ensures ended { All S.ended result.items }
        ensures stakes { map S.stake result.items ≡ map (λ spool. spool.stake) (all_spools self.old.workers self.old.spools) }
    {
        take_back(&mut self.workers, &mut self.spools, &mut self.idle);
        self.given = false;
        self.work = None;
        replace(&mut self.spools, spools)
    }

    /// The work of the build that runs.
    pub fn work(&self) -> Option<&Work>
        ensures { MatchOption result (self.now.work ≡ None) (λ work. self.now.work ≡ Some work.now) }
    {
        self.work.as_ref()
    }

    /// How many workers the build has.
    pub fn workers(&self) -> usize
        ensures { result ≡ length self.now.workers }
    {
        self.workers.len()
    }

    /// The spools that no worker has: all of them, while no build runs. Once a build that had them has ended they are ended.
    pub fn spools(&self) -> &[S]
        ensures own { map (spool_value S.runs S.open_run S.stake) result.now ≡ self.now.spools }
        ensures stakes { self.now.work ≡ None → map S.stake result.now ≡ (spools_state self.now.given (all_spools self.now.workers self.now.spools)).stakes }
        ensures ended { self.now.work ≡ None → (spools_state self.now.given (all_spools self.now.workers self.now.spools)).left ≡ [] → All S.ended result.now }
    {
        self.spools.as_slice()
    }

    /// How many spools are left for the next build.
    pub fn spools_left(&self) -> usize
        ensures { result ≡ length (spools_state self.now.given (all_spools self.now.workers self.now.spools)).left }
    {
        if self.given { 0 } else { self.spools.len() }
    }

    /// Whether each of these is empty.
    pub fn are_left_empty(&self) -> bool
        ensures { result ≡ list_all (λ is_empty. is_empty) (spools_state self.now.given (all_spools self.now.workers self.now.spools)).left }
    {
        self.given || are_empty(self.spools.as_slice())
    }

    /// A build begins, with this work: its workers get what they are given and their spools, and there is room for these to come
    /// back. The rings have been emptied for it. Takes no memory.
    pub fn begin(
        &mut self,
        alloc: Global,
        work: Work,
        equipment: Vec<Equipment<S>>,
        workers: Vec<Worker<S>>,
        home: Vec<S>,
    )
        requires idle { self.old.workers ≡ [] }
        requires nothing_done { work ≡ fresh work.build work.specs }
        requires unused { All (λ end. told_to work.build end.received ≡ []) self.old.sides }
        requires fresh { All (IsFresh work.build) self.old.idle }
        requires few { length equipment.items ≤ 16 }
        requires places { HasRoomFor (length equipment.items) workers }
        requires home { HasRoomFor (length self.old.spools) home }
        requires makers { All (λ it. IsNewMaker work.specs it.maker) equipment.items }
        requires rooms { All (λ it. HasRoomFor (length work.specs) it.spools) equipment.items }
        requires many { length self.old.spools ≡ length equipment.items * length work.specs }
        requires empty { All (λ spool. (spool.runs ≡ []) × (spool.open_run ≡ [])) self.old.spools }
        ensures rest { self.new ≡ record self.old { workers = self.new.workers; idle = self.new.idle; spools = []; given = true; work = Some work } }
        ensures intakes { intakes self.new.workers self.new.idle ≡ self.old.idle }
        ensures makers { map (λ worker. worker.maker) self.new.workers ≡ map (λ it. it.maker) equipment.items }
        ensures lent { workers_spools self.new.workers ≡ self.old.spools }
        ensures own { All (HasOwnSpools work.specs) self.new.workers }
        ensures workers { AreWorkers work.build work.specs false self.new.workers }
    {
        let mut workers = workers;
        let spools = replace(&mut self.spools, home);
        equip(
            alloc,
            &work,
            equipment,
            spools,
            &mut self.idle,
            &mut workers,
        );
        self.workers = workers;
        self.given = true;
        self.work = Some(work);
    }

    /// Whether a build runs whose indexes are being loaded.
    pub fn is_loading(&self) -> bool
        ensures handed { IfSome self.now.work (λ work. result ≡ work.handed) }
        ensures none { self.now.work ≡ None → result ≡ false }
    {
        match &self.work {
            Some(work) => work.is_loading(),
            None => false,
        }
    }

    /// The workers of the build hand their spools over, so that its indexes can be loaded. Takes no memory.
    pub fn hand_over(&mut self)
        requires { CanHandOver self.old }
        ensures { HasHandedOver self.old self.new }
    {
        let Some(work) = &mut self.work else {
            unreachable!()
        };
        laws_of::<S, T>(&self.workers);
        bring_home(&mut self.workers, &mut self.spools);
        work.handed = true;
    }

    /// Puts the pairs of an index in order, and answers how many there are; 0 where they are in order already. Want of memory
    /// spoils the build, and may lose some of the pairs of the index; the other spools stay as they are.
    pub fn load(&mut self, alloc: Global, index: usize) -> Result<usize, Fault>
        requires { CanLoad index self.old }
        ensures loaded { IfOk result (λ count. HasLoaded index self.old count self.new) }
        ensures first { OnErr result (IfSome self.old.work (IsUnloaded index)) }
        ensures spoiled { IfErr result (λ fault. LoadStopped index self.old fault self.new) }
        ensures memory { IfErr result (λ fault. fault ≡ Fault.Memory) }
    {
        let Some(work) = &mut self.work else {
            unreachable!()
        };
        if work.is_loaded(index) {
            return Ok(0);
        }
        let workers = self.workers.len();
        let built = match sorted_index(alloc, &mut self.spools, index, work, workers) {
            Ok(built) => built,
            Err(fault) => {
                work.spoiled = Some(fault);
                return Err(fault);
            }
        };
        let count = built.tree().len();
        work.indexes[index] = IndexWork {
            built: Some(built),
            applied: 0,
        };
        Ok(count)
    }

    /// Looks into the ring of an index's side-file, and answers how many entries it has seen there. It needs no lock: [`Building::apply`]
    /// applies what was seen. The table may feed more at any time.
    pub fn look_for_entries(&mut self, index: usize) -> usize
        requires { index < 8 }
        ensures { HasSeenEntries index self.old result self.new }
    {
        self.side_ends[index].look()
    }

    /// Applies the next entries that the index's ring is seen to have, and answers how many. Those that were applied before
    /// memory was wanted stay applied; to take a pair out of an index that isn't unique wants none. [`Fault::Memory`] is also the answer where
    /// more would be applied than `usize` counts.
    pub fn apply(&mut self, index: usize, count: usize) -> Result<usize, Fault>
        requires { CanApply index count self.old }
        ensures applied { IfOk result (λ entries. (entries ≡ count) × HasApplied index self.old count self.new) }
        ensures some { OnErr result (StopsApplying index count self.old self.new) }
        ensures memory { IfErr result (λ fault. fault ≡ Fault.Memory) }
    {
        // What the build keeps of the index is known once its fields are reached.
        let _given = &self.given;
        for _ in 0..count {
            self.apply_next(index)?;
        }
        Ok(count)
    }

    /// Applies the next entry, if it can be counted.
    fn apply_next(&mut self, index: usize) -> Result<(), Fault>
        requires { CanApply index 1 self.old }
        ensures applied { OnOk result (HasApplied index self.old 1 self.new) }
        ensures unchanged { OnErr result (HasApplied index self.old 0 self.new) }
        ensures needed { OnErr result (MayTakeMemoryFor index 0 self.old ⊎ CountsNoMore index 0 self.old) }
        ensures memory { IfErr result (λ fault. fault ≡ Fault.Memory) }
    {
        let Some(work) = &self.work else {
            unreachable!()
        };
        if work.applied(index) == usize::MAX {
            return Err(Fault::Memory);
        }
        self.apply_counted(index)
    }

    /// Applies the next entry, which can be counted.
    fn apply_counted(&mut self, index: usize) -> Result<(), Fault>
        requires can { CanApply index 1 self.old }
        requires countable { (taking : IsTakingEntries index self.old) → taking.it.applied + 1 < 2 ^ 64 }
        ensures applied { OnOk result (HasApplied index self.old 1 self.new) }
        ensures unchanged { OnErr result (HasApplied index self.old 0 self.new) }
        ensures needed { OnErr result (MayTakeMemoryFor index 0 self.old) }
        ensures memory { IfErr result (λ fault. fault ≡ Fault.Memory) }
    {
        let Some(work) = &mut self.work else {
            unreachable!()
        };
        let it = &mut work.indexes[index];
        let Some(built) = &mut it.built else {
            unreachable!()
        };
        let taken = apply(built, &mut self.side_ends[index], 1);
        built.laws();
        taken?;
        it.applied += 1;
        Ok(())
    }

    /// Ends the build that runs, and its spools; answered with its indexes. Takes no memory.
    pub fn end(&mut self) -> Option<Vec<IndexWork>>
        ensures left { self.new ≡ given_up self.old }
        ensures indexes { MatchOption result (self.old.work ≡ None) (λ indexes. IfSome self.old.work (λ work. work.indexes ≡ indexes.items)) }
    {
        take_back(&mut self.workers, &mut self.spools, &mut self.idle);
        match self.work.take() {
            Some(work) => Some(work.into_indexes()),
            None => None,
        }
    }

    /// Gives the work of the build up: its workers hand over what they have, and the spools are ended. Takes no memory.
    pub fn give_up(&mut self)
        ensures { self.new ≡ given_up self.old }
    {
        let _indexes = self.end();
    }
}
